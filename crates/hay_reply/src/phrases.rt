//! A word, and the numbers behind it.
ghost use Rattle.std.specs.Prelude.{◌≡◌, ◌++◌, OnOk, string_bytes};
ghost use Rattle.hay_reply.specs.Replies as texts;

use hay_base::NoMemory;

pub fn write_word(word: &str, out: &mut String) -> Result<(), NoMemory>
    ensures { OnOk result (string_bytes out.new ≡ string_bytes out.old ++ word.now) }
{
    out.push_str(word)?;
    Ok(())
}

/// Adds a word and a number.
pub fn write_one(word: &str, number: u64, out: &mut String) -> Result<(), NoMemory>
    ensures { OnOk result (string_bytes out.new ≡ string_bytes out.old ++ (word.now ++ texts.field number)) }
{
    write!(out, "{word} {number}")?;
    Ok(())
}

pub fn write_two(word: &str, first: u32, second: u64, out: &mut String) -> Result<(), NoMemory>
    ensures { OnOk result (string_bytes out.new ≡ string_bytes out.old ++ (word.now ++ texts.field first ++ texts.field second)) }
{
    write!(out, "{word} {first} {second}")?;
    Ok(())
}

pub fn write_three(
    word: &str,
    first: u32,
    second: u64,
    third: u64,
    out: &mut String,
) -> Result<(), NoMemory>
    ensures { OnOk result (string_bytes out.new ≡ string_bytes out.old ++ (word.now ++ texts.field first ++ texts.field second ++ texts.field third)) }
{
    write!(out, "{word} {first} {second} {third}")?;
    Ok(())
}

/// Adds a word, where a reader looked, and the fronts that it saw.
pub fn write_sight(
    word: &str,
    volume: u32,
    machine: u32,
    front: u64,
    rows: u64,
    out: &mut String,
) -> Result<(), NoMemory>
    ensures { OnOk result (string_bytes out.new ≡ string_bytes out.old ++ (word.now ++ texts.sight volume machine front rows)) }
{
    write!(out, "{word} {volume} {machine} {front} {rows}")?;
    Ok(())
}

/// Adds a word, a volume and a machine.
pub fn write_place(word: &str, volume: u32, machine: u32, out: &mut String) -> Result<(), NoMemory>
    ensures { OnOk result (string_bytes out.new ≡ string_bytes out.old ++ (word.now ++ texts.place volume machine)) }
{
    write!(out, "{word} {volume}:{machine}")?;
    Ok(())
}

/// The same with a number.
pub fn write_at(
    word: &str,
    volume: u32,
    machine: u32,
    number: u64,
    out: &mut String,
) -> Result<(), NoMemory>
    ensures { OnOk result (string_bytes out.new ≡ string_bytes out.old ++ (word.now ++ texts.place volume machine ++ texts.field number)) }
{
    write!(out, "{word} {volume}:{machine} {number}")?;
    Ok(())
}
