//! The script.
ghost use Rattle.std.specs.Prelude.{◌≡◌, ◌++◌, ◌%◌, ◌<◌, OnOk, OnErr, string_bytes};
ghost use Rattle.hay_drill.specs.Parts as parts;
ghost use Rattle.hay_drill.specs.Script as script;
ghost use Rattle.hay_url.specs.Url.{cookie_of};

use hay_base::NoMemory;
use hay_needle::{Cookie, Settings, USUAL_CAPACITY};
use hay_url::{cookie_of, cookie_text};
use std::alloc::Global;

const MACHINES: u32 = 4;

const VOLUMES: u32 = 8;

const REPLICAS: u32 = 2;
/// Each photo has the alternate keys from 1 to below this.
const ALTS_END: u32 = 5;
/// Lanes that read, while one more compacts.
const READERS: u32 = 4;

/// The settings of the store in which the script is run.
pub fn drill_settings() -> Settings
    ensures { result ≡ script.settings }
{
    Settings {
        machines: MACHINES,
        volumes: VOLUMES,
        replicas: REPLICAS,
        capacity: USUAL_CAPACITY,
        secret: [0; 32],
    }
}

/// What is written for one photo after the other.
#[derive(Clone, Copy)]
enum Part {
    Uploads,
    Replacements,
    Deletions,
    LaneReads,
    Reads,
}

/// The key of a photo: keys go on at 0 behind the last one.
fn key_of(first: u64, photo: u32) -> u64
    ensures { result ≡ script.key_of first photo }
{
    first.wrapping_add(u64::from(photo))
}

fn byte_of(photo: u32) -> u8
    ensures { result ≡ photo % 256 }
{
    (photo % 256) as u8
}

fn size_of(alt: u32) -> u32
    ensures { result ≡ script.size_of alt }
{
    match alt {
        1 => 65_536,
        2 => 16_384,
        3 => 4_096,
        _ => 1_024,
    }
}

fn write_put(alloc: Global, key: u64, alt: u32, byte: u8, out: &mut String) -> Result<(), NoMemory>
    ensures { OnOk result (string_bytes out.new ≡ string_bytes out.old ++ script.put_line key alt byte) }
{
    let size = size_of(alt);
    let digits = hex::encode(alloc, [byte])?;
    writeln!(out, "put {key} {alt} x{size}:{digits}")?;
    Ok(())
}

fn write_uploads(alloc: Global, first: u64, photo: u32, out: &mut String) -> Result<(), NoMemory>
    ensures { OnOk result (string_bytes out.new ≡ string_bytes out.old ++ script.uploads first photo) }
{
    let key = key_of(first, photo);
    let byte = byte_of(photo);
    for alt in 1..ALTS_END {
        write_put(alloc, key, alt, byte, out)?;
    }
    Ok(())
}

fn write_replacement(
    alloc: Global,
    first: u64,
    photo: u32,
    out: &mut String,
) -> Result<(), NoMemory>
    ensures { OnOk result (string_bytes out.new ≡ string_bytes out.old ++ script.replacement first photo) }
{
    if photo % 5 == 0 {
        write_put(alloc, key_of(first, photo), 1, 255 - byte_of(photo), out)?;
    }
    Ok(())
}

fn write_deletion(first: u64, photo: u32, out: &mut String) -> Result<(), NoMemory>
    ensures { OnOk result (string_bytes out.new ≡ string_bytes out.old ++ script.deletion first photo) }
{
    if photo % 7 == 0 {
        let key = key_of(first, photo);
        writeln!(out, "del {key} 2")?;
    }
    Ok(())
}

/// Adds the number of a lane, if the line stands in one.
fn write_lane(lane: Option<u32>, out: &mut String) -> Result<(), NoMemory>
    ensures { OnOk result (string_bytes out.new ≡ string_bytes out.old ++ script.lane_text lane) }
{
    if let Some(lane) = lane {
        write!(out, "{lane} ")?;
    }
    Ok(())
}

fn write_read(
    alloc: Global,
    lane: Option<u32>,
    key: u64,
    alt: u32,
    cookie: Cookie,
    out: &mut String,
) -> Result<(), NoMemory>
    requires { cookie ≡ cookie_of script.settings.secret key }
    ensures { OnOk result (string_bytes out.new ≡ string_bytes out.old ++ script.read_line lane key alt) }
{
    write_lane(lane, out)?;
    write!(out, "read {key} {alt} ")?;
    cookie_text(alloc, cookie, out)?;
    writeln!(out)?;
    Ok(())
}

fn write_reads(
    alloc: Global,
    lane: Option<u32>,
    first: u64,
    photo: u32,
    out: &mut String,
) -> Result<(), NoMemory>
    ensures { OnOk result (string_bytes out.new ≡ string_bytes out.old ++ script.reads lane first photo) }
{
    let key = key_of(first, photo);
    let cookie = cookie_of(&[0; 32], key);
    for alt in 1..ALTS_END {
        write_read(alloc, lane, key, alt, cookie, out)?;
    }
    Ok(())
}

fn write_photo(
    alloc: Global,
    part: Part,
    first: u64,
    photo: u32,
    out: &mut String,
) -> Result<(), NoMemory>
    ensures { OnOk result (string_bytes out.new ≡ string_bytes out.old ++ parts.photo_text part first photo) }
{
    match part {
        Part::Uploads => write_uploads(alloc, first, photo, out),
        Part::Replacements => write_replacement(alloc, first, photo, out),
        Part::Deletions => write_deletion(first, photo, out),
        Part::LaneReads => write_reads(alloc, Some(photo % READERS), first, photo, out),
        Part::Reads => write_reads(alloc, None, first, photo, out),
    }
}

fn write_photos(
    alloc: Global,
    part: Part,
    count: u32,
    first: u64,
    out: &mut String,
) -> Result<(), NoMemory>
    ensures { OnOk result (string_bytes out.new ≡ string_bytes out.old ++ script.each_photo (parts.photo_text part first) count) }
{
    for photo in 0..count {
        write_photo(alloc, part, first, photo, out)?;
    }
    Ok(())
}

/// Adds a line for each replica of a volume, with its machine.
fn write_volume(verb: &str, volume: u32, out: &mut String) -> Result<(), NoMemory>
    requires { volume < 8 }
    ensures { OnOk result (string_bytes out.new ≡ string_bytes out.old ++ script.volume_lines verb.now volume) }
{
    for replica in 0..REPLICAS {
        let machine = (volume + replica) % MACHINES;
        writeln!(out, "{verb} {volume} {machine}")?;
    }
    Ok(())
}

fn write_replicas(verb: &str, out: &mut String) -> Result<(), NoMemory>
    ensures { OnOk result (string_bytes out.new ≡ string_bytes out.old ++ script.each_replica verb.now) }
{
    for volume in 0..VOLUMES {
        write_volume(verb, volume, out)?;
    }
    Ok(())
}

fn write_block(alloc: Global, count: u32, first: u64, out: &mut String) -> Result<(), NoMemory>
    ensures { OnOk result (string_bytes out.new ≡ string_bytes out.old ++ script.block count first) }
{
    writeln!(out, "lanes 5")?;
    write_photos(alloc, Part::LaneReads, count, first, out)?;
    write_replicas("4 compact", out)?;
    writeln!(out, "end")?;
    Ok(())
}

fn write_script(alloc: Global, count: u32, first: u64, out: &mut String) -> Result<(), NoMemory>
    ensures { OnOk result (string_bytes out.new ≡ string_bytes out.old ++ script.drill_script count first) }
{
    write_photos(alloc, Part::Uploads, count, first, out)?;
    write_photos(alloc, Part::Replacements, count, first, out)?;
    write_photos(alloc, Part::Deletions, count, first, out)?;
    write_replicas("flush", out)?;
    write_block(alloc, count, first, out)?;
    writeln!(out, "restart 0")?;
    write_photos(alloc, Part::Reads, count, first, out)?;
    Ok(())
}

/// Adds the script of so many photos, from the first key on. `NoMemory` adds nothing.
pub fn drill_script(
    alloc: Global,
    count: u32,
    first: u64,
    out: &mut Vec<u8>,
) -> Result<(), NoMemory>
    ensures ok { OnOk result (out.new.items ≡ out.old.items ++ script.drill_script count first) }
    ensures err { OnErr result (out.new.items ≡ out.old.items) }
{
    let mut text = String::new(alloc);
    write_script(alloc, count, first, &mut text)?;
    out.extend_from_slice(text.as_bytes())?;
    Ok(())
}
