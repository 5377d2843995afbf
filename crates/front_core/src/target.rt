//! The key of a target that is at fault.
use front_forms::{
    Detail, Error, blanks, nearest, part, say, say_around, say_number, say_short, value_column,
};
use std::alloc::{AllocError, Global};
use text_core::lines;
use toml::{Table, Value};

/// The keys of targets.
const KEYS: [&str; 3] = ["arity", "height", "arities"];

/// The mark around a key in double quotes.
const DOUBLE_QUOTE: u8 = 0x22;

/// The most numbers of `arities`.
const MOST_HEIGHT: u64 = 16;

/// Returns whether a line gives the value of a key.
fn has_key(line: &[u8], key: &str) -> bool {
    let begun = part(line, blanks(line), line.len());
    let bare = match begun {
        [DOUBLE_QUOTE | b'\'' | b'[', rest @ ..] => rest,
        _ => begun,
    };
    bare.starts_with(key.as_bytes())
        && !matches!(bare.get(key.len()), Some(b'a'..=b'z' | b'A'..=b'Z' | b'0'..=b'9' | b'_' | b'-'))
}

/// Returns the error at a key, or at its value, with the line where the text has it.
fn at_key(
    alloc: Global,
    text: &[u8],
    key: &str,
    is_value: bool,
    message: Vec<u8>,
) -> Result<Option<Detail>, AllocError> {
    let lines = lines(alloc, text)?;
    let mut found = Detail {
        line: 0,
        column: 0,
        message,
    };
    for (place, span) in lines.as_slice().iter().enumerate() {
        let line = part(text, span.start, span.end);
        if has_key(line, key) {
            found.line = (place as u64).saturating_add(1);
            found.column = if is_value {
                value_column(line)
            } else {
                blanks(line)
            };
            break;
        }
    }
    Ok(Some(found))
}

/// Returns what TOML's reader says of a text that it doesn't read, with the place.
fn syntax_detail(
    alloc: Global,
    text: &[u8],
    error: &toml::de::Error,
) -> Result<Option<Detail>, AllocError> {
    let mut message = Vec::new(alloc);
    say(
        &mut message,
        "expected a TOML document, found an error in it: ",
    )?;
    say(&mut message, error.message())?;
    let at = match error.span() {
        Some(span) => span.start,
        None => 0,
    };
    let before = part(text, 0, at);
    let column = before
        .iter()
        .rev()
        .take_while(|byte| **byte != b'\n')
        .count();
    let line = before.iter().filter(|byte| **byte == b'\n').count();
    Ok(Some(Detail {
        line: (line as u64).saturating_add(1),
        column,
        message,
    }))
}

/// Appends a key that targets don't have.
fn say_unknown(alloc: Global, into: &mut Vec<u8>, key: &str) -> Result<(), AllocError> {
    say(
        into,
        "expected the keys arity and height, or arities alone, found `",
    )?;
    say_short(into, key)?;
    say(into, "`")?;
    match nearest(alloc, key, &KEYS)? {
        Some(name) => say_around(into, "; did you mean `", name, "`?"),
        None => Ok(()),
    }
}

/// Appends what a value is.
fn say_value(into: &mut Vec<u8>, value: &Value) -> Result<(), AllocError> {
    match value {
        Value::Integer(number) => {
            say(into, if *number < 0 { "-" } else { "" })?;
            say_number(into, number.unsigned_abs())
        }
        Value::String(_) => say(into, "text in quotes"),
        Value::Float(_) => say(into, "a number with a point"),
        Value::Boolean(_) => say(into, "a truth value"),
        Value::Datetime(_) => say(into, "a date or time"),
        Value::Array(_) => say(into, "a list"),
        Value::Table(_) => say(into, "a table"),
    }
}

/// Returns whether a value is a whole number in a range.
fn is_within(value: &Value, least: i64, most: i64) -> bool {
    match value {
        Value::Integer(number) => least <= *number && *number <= most,
        _ => false,
    }
}

/// Returns the message on a key whose value isn't a whole number in a range; none if it is.
fn number_fault(
    alloc: Global,
    table: &Table,
    key: &str,
    least: i64,
    most: i64,
) -> Result<Option<Vec<u8>>, AllocError> {
    let Some(value) = table.get(key) else {
        return Ok(None);
    };
    if is_within(value, least, most) {
        return Ok(None);
    }
    let mut message = Vec::new(alloc);
    say_around(
        &mut message,
        "expected a whole number from ",
        if least == 0 { "0 to 16" } else { "2 to 64" },
        " for ",
    )?;
    say_around(&mut message, "`", key, "`, found ")?;
    say_value(&mut message, value)?;
    Ok(Some(message))
}

/// Returns the message on the value of `arities`; none if it is right.
fn list_fault(alloc: Global, value: &Value) -> Result<Option<Vec<u8>>, AllocError> {
    let mut message = Vec::new(alloc);
    say(
        &mut message,
        "expected a list of at most 16 whole numbers from 2 to 64 for `arities`, found ",
    )?;
    let Value::Array(items) = value else {
        say_value(&mut message, value)?;
        return Ok(Some(message));
    };
    let mut place: u64 = 0;
    for item in items.as_slice() {
        place = place.saturating_add(1);
        if !is_within(item, 2, 64) {
            say_value(&mut message, item)?;
            say(&mut message, " as number ")?;
            say_number(&mut message, place)?;
            return Ok(Some(message));
        }
    }
    say_number(&mut message, place)?;
    say(&mut message, " numbers")?;
    Ok(if place > MOST_HEIGHT {
        Some(message)
    } else {
        None
    })
}

/// Returns the error of the values of the keys that a target has.
fn values_detail(alloc: Global, text: &[u8], table: &Table) -> Result<Option<Detail>, AllocError> {
    if let Some(value) = table.get("arities") {
        return match list_fault(alloc, value)? {
            Some(message) => at_key(alloc, text, "arities", true, message),
            None => Ok(None),
        };
    }
    if let Some(message) = number_fault(alloc, table, "arity", 2, 64)? {
        return at_key(alloc, text, "arity", true, message);
    }
    match number_fault(alloc, table, "height", 0, 16)? {
        Some(message) => at_key(alloc, text, "height", true, message),
        None => Ok(None),
    }
}

/// Returns the error of a key that is missing, or that `arities` excludes.
fn missing_detail(alloc: Global, text: &[u8], table: &Table) -> Result<Option<Detail>, AllocError> {
    let has_arity = table.contains_key("arity");
    let has_height = table.contains_key("height");
    let mut message = Vec::new(alloc);
    if table.contains_key("arities") {
        let other = if has_arity { "arity" } else { "height" };
        if !has_arity && !has_height {
            return Ok(None);
        }
        say_around(
            &mut message,
            "expected arities alone, found `",
            other,
            "` too",
        )?;
        return at_key(alloc, text, other, false, message);
    }
    if has_arity && has_height {
        return Ok(None);
    }
    say(
        &mut message,
        "expected the keys arity and height, or arities alone, found no ",
    )?;
    say(&mut message, if has_arity { "`height`" } else { "`arity`" })?;
    Ok(Some(Detail {
        line: 0,
        column: 0,
        message,
    }))
}

/// Returns the key of a target that targets don't have.
fn unknown_key(table: &Table) -> Option<&str> {
    for (key, _) in table.iter() {
        if !KEYS.iter().any(|name| key.as_str() == *name) {
            return Some(key.as_str());
        }
    }
    None
}

/// Returns the error of a target that TOML's reader reads.
fn table_detail(
    alloc: Global,
    error: Error<'_>,
    table: &Table,
) -> Result<Option<Detail>, AllocError> {
    if error.code == 3 {
        let key = if table.contains_key("arities") {
            "arities"
        } else {
            "height"
        };
        return at_key(alloc, error.text, key, true, Vec::new(alloc));
    }
    if let Some(key) = unknown_key(table) {
        let mut message = Vec::new(alloc);
        say_unknown(alloc, &mut message, key)?;
        return at_key(alloc, error.text, key, false, message);
    }
    match missing_detail(alloc, error.text, table)? {
        Some(detail) => Ok(Some(detail)),
        None => values_detail(alloc, error.text, table),
    }
}

/// Returns the place of an error in a target, and its message. Fails if out of memory.
pub fn target_detail(alloc: Global, error: Error<'_>) -> Result<Option<Detail>, AllocError> {
    match toml::table_from_slice(alloc, error.text) {
        Ok(table) => table_detail(alloc, error, &table),
        Err(fault) if fault.is_memory() => Err(AllocError),
        Err(fault) => syntax_detail(alloc, error.text, &fault),
    }
}
