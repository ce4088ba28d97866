use crate::{Clause, RulePart, clause_in, part_after, read_rules};
use inp_forms::Known;
use inp_lines::{SectionName, add_first, no_names, split_lines};
use net_types::{FlowUnits, LineFault, List, OutOfMemory, Rule};
use std::alloc::Global;
use std::test::Fail;

#[test]
fn clauses_by_their_words(rt: HostRuntime) {
    assert!(rt; clause_in(b"rule") == Some(Clause::Rule));
    assert!(rt; clause_in(b"Priority") == Some(Clause::Priority));
    assert!(rt; clause_in(b"ORR").is_none());
}

// Where a rule is after these words.
fn part_of_words(words: &[&[u8]]) -> RulePart {
    let mut part = RulePart::Outside;
    for word in words {
        part = part_after(part, clause_in(word));
    }
    part
}

#[test]
fn clauses_in_their_order(rt: HostRuntime) {
    assert!(rt; part_of_words(&[b"RULE", b"IF", b"OR", b"THEN", b"AND"]) == RulePart::ThenActions);
    assert!(rt; part_of_words(&[b"RULE", b"IF", b"THEN", b"ELSE", b"PRIORITY"]) == RulePart::Ended);
    assert!(rt; part_of_words(&[b"RULE", b"THEN", b"IF"]) == RulePart::Tests);
    assert!(rt; part_of_words(&[b"IF", b"OR"]) == RulePart::Outside);
}

// Nodes J1 and J2, a conduit C1 and a pump P1.
fn some_names<'a>(alloc: Global) -> Result<Known<'a>, OutOfMemory> {
    let mut nodes = no_names(alloc);
    add_first(&mut nodes, b"J1", 0)?;
    add_first(&mut nodes, b"J2", 1)?;
    let mut links = no_names(alloc);
    add_first(&mut links, b"C1", 0)?;
    add_first(&mut links, b"P1", 1)?;
    let mut link_sections = List::new(alloc);
    link_sections.push(SectionName::Conduits)?;
    link_sections.push(SectionName::Pumps)?;
    Ok(Known {
        units: FlowUnits::Cms,
        nodes,
        links,
        link_sections,
        subs: no_names(alloc),
        gages: no_names(alloc),
        series: no_names(alloc),
        patterns: no_names(alloc),
        curves: no_names(alloc),
        curve_kinds: List::new(alloc),
    })
}

// Whether faults are these, by line, number and token.
fn are(faults: &List<LineFault>, expected: &[(u32, u32, &[u8])]) -> bool {
    let same = faults.as_slice().iter().zip(expected.iter()).all(|(fault, expected)| {
        fault.line == expected.0
            && fault.number == expected.1
            && fault.token.as_slice() == expected.2
    });
    same && faults.as_slice().len() == expected.len()
}

// The sizes of the groups of a rule and of its two lists of actions.
fn sizes(alloc: Global, rule: &Rule) -> Result<List<usize>, OutOfMemory> {
    let mut sizes = List::new(alloc);
    for group in rule.groups.as_slice() {
        sizes.push(group.as_slice().len())?;
    }
    sizes.push(rule.then_acts.as_slice().len())?;
    sizes.push(rule.else_acts.as_slice().len())?;
    Ok(sizes)
}

// A OR B AND C OR D is (A OR B) AND (C OR D).
#[test]
fn binds_or_stronger_than_and(rt: HostRuntime) -> Result<(), Fail> {
    let alloc = rt.alloc();
    let lines = split_lines(
        alloc,
        b"[CONTROLS]\nRULE FILLS\nIF NODE J1 DEPTH > 1\nOR NODE J1 DEPTH < 0.5\nAND NODE J2 DEPTH > 1\n\
          THEN PUMP P1 STATUS = OFF\nAND CONDUIT C1 STATUS = OPEN\nELSE PUMP P1 SETTING = 0.5\n\
          PRIORITY 2\n\nrule DRAINS\nif simulation time > 1\nthen pump P1 setting = 1\n",
    )?;
    let known = some_names(alloc)?;
    let mut rules = List::new(alloc);
    let faults = read_rules(alloc, &known, &lines, &mut rules)?;
    assert!(rt; are(&faults, &[]));
    let first: &[usize] = &[2, 1, 2, 1];
    let second: &[usize] = &[1, 1, 0];
    let expected = [
        (b"FILLS".as_slice(), first, Some(2_000_000)),
        (b"DRAINS".as_slice(), second, None),
    ];
    assert!(rt; rules.as_slice().len() == 2);
    for (rule, entry) in rules.as_slice().iter().zip(expected.iter()) {
        assert!(rt; rule.name.as_slice() == entry.0);
        assert!(rt; sizes(alloc, rule)?.as_slice() == entry.1);
        assert!(rt; rule.priority6 == entry.2);
    }
    Ok(())
}

// Clauses out of sequence change nothing; a rule that comes to no THEN is told at its RULE line.
#[test]
fn tells_clauses_out_of_sequence(rt: HostRuntime) -> Result<(), Fail> {
    let alloc = rt.alloc();
    let lines = split_lines(
        alloc,
        b"[CONTROLS]\nAND SIMULATION TIME > 1\nRULE a\nAND SIMULATION TIME > 1\nIF NODE J1 DEPTH > 1\n\
          PRIORITY\nTHEN CONDUIT C1 STATUS = OPEN\nAND SIMULATION TIME > 1\nPRIORITY x\n\
          AND CONDUIT C1 STATUS = OPEN\nFOO\nRULE\nTHEN\nRULE a\nRULE a\nIF NODE J9 DEPTH > 1\n\
          THEN CONDUIT C1 STATUS = OPEN\nRULE a\n[MAP]\nELSE\n[CONTROLS]\nIF NODE J1 DEPTH > x\n",
    )?;
    let known = some_names(alloc)?;
    let mut rules = List::new(alloc);
    let faults = read_rules(alloc, &known, &lines, &mut rules)?;
    assert!(rt;
        are(
            &faults,
            &[
                (2, 217, b"AND"),
                (4, 217, b"AND"),
                (6, 203, b"PRIORITY"),
                (8, 203, b"1"),
                (9, 211, b"x"),
                (10, 217, b"AND"),
                (11, 205, b"FOO"),
                (12, 203, b"RULE"),
                (13, 203, b"THEN"),
                (14, 217, b"RULE"),
                (15, 207, b"a"),
                (16, 209, b"J9"),
                (18, 217, b"RULE"),
                (22, 211, b"x"),
            ]
        )
    );
    assert!(rt; rules.as_slice().len() == 5);
    Ok(())
}
