//! What a fault means, and what to do.

/// Numbers of faults, and the lines that tell them.
macro_rules! lines {
    ($($code:literal $line:literal)*) => { [$(($code, concat!("  ", $line, "\n"))),*] };
}

/// What a fault means, and what to do, with its number: of documents, of texts, and of certificates.
static LINES: [(u8, &str); 23] = lines! {
    1 "This is no TOML document, or not UTF-8. Any TOML tool tells more."
    2 "A field is missing, or empty where one thing at least is wanted. Add it."
    3 "The value is of another kind than is wanted. Write it as the format has it."
    4 "This stands here for the second time. Take one out."
    5 "Nothing declares this name. Declare it, or spell it as it is declared."
    6 "The list is too long. Leave some of it out."
    7 "A name has up to 32 letters, digits and `_`, the first a letter, and is no word of the language. Take another."
    8 "The second label does not dominate the first. Exchange them, or take others."
    10 "The relation has no key. Add a `[[relation.key]]`."
    11 "The key attributes of a relation have one interval. Give all the same `low` and `high`."
    21 "Nothing can begin here. A name has up to 32 letters, a number 64 bits, and a text ends on its line."
    22 "Something else is wanted here. Write it in that form."
    23 "Nothing of this name can stand here. Declare it, or spell it as it is declared."
    24 "A value of another kind is wanted here, or a list of another length."
    25 "This name is given twice. Take another."
    26 "This stands inside 16 others, or is a 17th test. Nest fewer, or assign a part to a variable first."
    27 "A text has more than 8,192 bytes, or there are too many things of a kind. Leave some out."
    28 "The upper label of the transaction does not dominate this one. Raise it, or lower the other."
    30 "The last line has no line feed. End it with one."
    51 "This is no line that a certificate has here. Make the file again with `mldb certify`."
    52 "An item of the line is no label. Make the file again with `mldb certify`."
    53 "The version is neither 1 nor 2. Make the file again with `mldb certify`."
    54 "An earlier certificate has this name. Take one out."
};

/// What a fault of a number means, and what to do; nothing of one that no refused input has.
pub fn advice_of(code: u8) -> &'static str {
    match LINES.iter().find(|line| line.0 == code) {
        Some(line) => line.1,
        None => "",
    }
}
