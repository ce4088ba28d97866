use crate::{Item, Keyword, Known, Value, What, Words, read_values};
use inp_lines::{Naming, no_names, split_lines};
use inp_values::Quantity;
use net_types::{FlowUnits, List};
use std::alloc::Global;
use std::test::Fail;

// A pump between nodes, as far as its items are numbers and keywords.
const PUMP: [Item; 4] = [
    Item::Needed(What::Name),
    Item::Needed(What::Number(Quantity::Depth)),
    Item::Or(Value::Choice(Keyword::On), What::Word(Words::Status)),
    Item::Or(Value::Amount(1), What::Halves),
];

// A reader that knows no names.
fn knows_nothing<'a>(alloc: Global) -> Known<'a> {
    Known {
        units: FlowUnits::Cms,
        nodes: no_names(alloc),
        links: no_names(alloc),
        link_sections: List::new(alloc),
        subs: no_names(alloc),
        gages: no_names(alloc),
        series: no_names(alloc),
        patterns: no_names(alloc),
        curves: no_names(alloc),
        curve_kinds: List::new(alloc),
    }
}

#[test]
fn reads_items_and_the_first_fault(rt: HostRuntime) -> Result<(), Fail> {
    let alloc = rt.alloc();
    let lines = split_lines(
        alloc,
        b"[PUMPS]\nP1 1.5 off 2.5\nP2 2\nP3\nP4 x OF\nP5 1 OF 7\nP6 1 ON .25\n",
    )?;
    let known = knows_nothing(alloc);
    let expected = [
        Ok([
            Value::Nothing,
            Value::Amount(1_500_000),
            Value::Choice(Keyword::Off),
            Value::Index(5),
        ]),
        Ok([
            Value::Nothing,
            Value::Amount(2_000_000),
            Value::Choice(Keyword::On),
            Value::Amount(1),
        ]),
        Err((203, 0)),
        Err((211, 1)),
        Err((205, 2)),
        Err((401, 3)),
    ];
    for (line, expected) in lines.as_slice().iter().zip(expected.iter()) {
        let values = read_values::<4>(&known, Naming::First, &PUMP, line.tokens.as_slice());
        let found = match values {
            Ok(values) => Ok(values),
            Err(fault) => Err((fault.number, fault.place)),
        };
        assert!(rt; found == *expected);
    }
    Ok(())
}
