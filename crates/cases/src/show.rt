//! Values, faults and bytes, as tables tell them.
use case_tables::Told;
use mls_scheme::Value;
use std::alloc::{AllocError, Global};

/// Adds a word after a blank.
pub fn push_word(word: &str, out: &mut Told) {
    out.push(" ");
    out.push(word);
}

/// Adds the number and the name of a fault.
pub fn push_fault(code: u8, word: &str, out: &mut Told) {
    out.push_count(code as usize);
    push_word(word, out);
}

/// Adds a value after a blank: digits, or a text between quotes as it is.
pub fn push_value(value: &Value, out: &mut Told) {
    out.push(" ");
    match value {
        Value::Int(number) => out.push_number(*number),
        Value::Text(text) => {
            out.push("\"");
            out.push(text.as_str());
            out.push("\"");
        }
    }
}

/// Adds bytes in hexadecimal.
fn push_hex(alloc: Global, bytes: &[u8], out: &mut Told) {
    match hex::encode(alloc, bytes) {
        Ok(digits) => out.push(&digits),
        Err(_) => out.fail(),
    }
}

/// Adds the bytes that are written for something.
pub fn push_written(alloc: Global, written: Result<Vec<u8>, AllocError>, out: &mut Told) {
    out.push(" = ");
    match written {
        Ok(bytes) => push_hex(alloc, &bytes, out),
        Err(_) => out.fail(),
    }
}
