// Lines of titles, section lines, comments and quotes.
use crate::lines::Lines;

pub(crate) const TITLES: Lines = Lines {
    above: "[TITLE]",
    rows: "
    good      | a small town
    205 [town | [town
    ",
    below: "",
};

// Up to four bytes behind the bracket are the key of a section.
pub(crate) const SECTION_LINES: Lines = Lines {
    above: "[TITLE]",
    rows: "
    good        | [JUNCTIONS]
    good        | [junc
    good        | [MAP
    good        | [JUNCTION BOXES] of the town
    205 [NODES] | [NODES]
    205 [JUN]   | [JUN]
    205 [       | [ MAP]
    205 []      | []
    ",
    below: "",
};

// What is behind a semicolon isn't read; a quoted token may have blanks.
pub(crate) const TOKENS: Lines = Lines {
    above: "[JUNCTIONS]",
    rows: r#"
    good     | ; a comment
    good     | J9 10;3 deep
    good     | "J 9" 10 3
    good     | "J9"10 3
    good     | "" 10 3
    203 J9   | J9 ; 10 3
    203      | ""
    207 J1   | "J1" 10 3
    211 1 0  | J9 "1 0" 3
    211 -"10 | J9 -"10 3
    "#,
    below: "",
};
