// Fields by name, read and set with the port's own methods.
#![tactic(auto)]

mod headers;

use named::NoValue;

fn register_read(register: &[u8], name: &[u8], word: u64) -> Option<u32> {
    let w = u32::try_from(word).ok()?;
    setup_fields::read(register, name, w).or(fifo_fields::read(register, name, w))
}

fn register_set(register: &[u8], name: &[u8], v: u32, word: u64) -> Option<u32> {
    let w = u32::try_from(word).ok()?;
    setup_fields::with(register, name, v, w).or(fifo_fields::with(register, name, v, w))
}

pub fn field_read(register: &[u8], name: &[u8], word: u64) -> Result<u64, NoValue> {
    let v = match register {
        b"TxHeader" => headers::read(true, name, word)?,
        b"RxHeader" => headers::read(false, name, word)?,
        _ => register_read(register, name, word).ok_or(NoValue::Unknown)?,
    };
    Ok(v as u64)
}

pub fn field_set(register: &[u8], name: &[u8], value: u64, word: u64) -> Result<u64, NoValue> {
    let v = u32::try_from(value).ok().ok_or(NoValue::Unknown)?;
    match register {
        b"TxHeader" => headers::with(true, name, v, word),
        b"RxHeader" => headers::with(false, name, v, word),
        _ => Ok(register_set(register, name, v, word).ok_or(NoValue::Unknown)? as u64),
    }
}
