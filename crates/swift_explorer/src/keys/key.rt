//! Numbers as bytes.

ghost use Rattle.std.specs.Prelude.{◌≡◌, ◌<◌, ◌^◌, ◌++◌, ◌∷◌, [], IfOk, OnOk};
ghost use Rattle.swift_explorer.specs.Bytes.{all_packed, bytes_2, bytes_4, bytes_8, packed};

use std::alloc::{AllocError, Global};

fn put_2(bytes: &mut Vec<u8>, number: u64) -> Result<(), AllocError>
    requires { number < 2 ^ 16 }
    ensures { OnOk result (bytes.new.items ≡ bytes.old.items ++ bytes_2 number) }
{
    bytes.push((number / 256) as u8)?;
    bytes.push((number % 256) as u8)?;
    Ok(())
}

fn put_4(bytes: &mut Vec<u8>, number: u64) -> Result<(), AllocError>
    requires { number < 2 ^ 32 }
    ensures { OnOk result (bytes.new.items ≡ bytes.old.items ++ bytes_4 number) }
{
    put_2(bytes, number / 65_536)?;
    put_2(bytes, number % 65_536)
}

fn put_8(bytes: &mut Vec<u8>, number: u64) -> Result<(), AllocError>
    ensures { OnOk result (bytes.new.items ≡ bytes.old.items ++ bytes_8 number) }
{
    put_4(bytes, number / 4_294_967_296)?;
    put_4(bytes, number % 4_294_967_296)
}

// Writes a byte. Mostly there is room for it, so that no call is made.
#[inline(always)]
fn put_byte(bytes: &mut Vec<u8>, byte: u8) -> Result<(), AllocError>
    ensures { OnOk result (bytes.new.items ≡ bytes.old.items ++ byte ∷ []) }
{
    if bytes.len() < bytes.capacity() {
        bytes.push_reserved(byte);
        return Ok(());
    }
    bytes.push(byte)?;
    Ok(())
}

// Writes a number.
fn put(bytes: &mut Vec<u8>, number: i64) -> Result<(), AllocError>
    ensures { OnOk result (bytes.new.items ≡ bytes.old.items ++ packed number) }
{
    if number < 0 {
        bytes.push(254)?;
        return put_8(bytes, (-(number + 1)) as u64);
    }
    if number < 253 {
        return put_byte(bytes, number as u8);
    }
    bytes.push(253)?;
    put_8(bytes, number as u64)
}

/// The bytes of a list of numbers. No other list has the same (`bytes_are_read`).
pub fn pack(alloc: Global, numbers: &[i64]) -> Result<Vec<u8>, AllocError>
    ensures { IfOk result (λ bytes. bytes.items ≡ all_packed numbers.now) }
{
    let mut bytes = Vec::with_capacity(alloc, numbers.len())?;
    for number in numbers {
        put(&mut bytes, *number)?;
    }
    Ok(bytes)
}
