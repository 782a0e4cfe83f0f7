//! Lines of refs, of sizes, and of what packs hold (`docs/commands.md`).
ghost use Rattle.std.specs.Prelude.{◌≡◌, ◌++◌, decimal, flat_map, IfOk, OnOk};
ghost use Rattle.perkeep_lines.specs.Outputs.{ref_line, size_line, counted, load_line, report_of};
ghost use Rattle.perkeep_lines.specs.Outputs.{five_digits, pack_name, found_line, clean_line};

use blobref::{Listing, NoMemory, Octets, Ref};
use itoa::Buffer;
use salvage_scan::{Clean, Found};
use std::alloc::Global;

/// A ref, and a line feed. `NoMemory` comes only where no memory is left.
pub fn ref_line(alloc: Global, r: &Ref) -> Result<Octets, NoMemory>
    ensures { IfOk result (λ line. line ≡ ref_line r.now) }
{
    let mut line = Vec::new(alloc);
    line.extend_from_slice(r.spell().as_slice())?;
    line.push(b'\n')?;
    Ok(Octets::from_vec(line))
}

/// A line for each ref with its size, in the order of the list. `NoMemory` comes only where no memory is left.
pub fn size_lines(alloc: Global, listing: &Listing) -> Result<Octets, NoMemory>
    ensures { IfOk result (λ lines. lines ≡ flat_map size_line listing.now) }
{
    let mut text = Vec::new(alloc);
    for (r, size) in listing.as_slice() {
        push_size_line(&mut text, r, *size)?;
    }
    Ok(Octets::from_vec(text))
}

/// A line for each blob that was found in a pack, and a line for the pack, which has this number: clean, or broken at a
/// place. `NoMemory` comes only where no memory is left.
pub fn report_of(
    alloc: Global,
    pack: u32,
    found: &[Found],
    clean: Clean,
) -> Result<Octets, NoMemory>
    ensures { IfOk result (λ text. text ≡ report_of pack found.now clean) }
{
    let mut text = Vec::new(alloc);
    for place in found {
        push_found_line(&mut text, pack, place)?;
    }
    push_clean_line(&mut text, pack, clean)?;
    Ok(Octets::from_vec(text))
}

/// A ref and the size of its blob, and a line feed. `NoMemory` comes only where no memory is left.
pub fn size_line(alloc: Global, r: &Ref, size: u64) -> Result<Octets, NoMemory>
    ensures { IfOk result (λ line. line ≡ size_line (r.now, size)) }
{
    let mut line = Vec::new(alloc);
    push_size_line(&mut line, r, size)?;
    Ok(Octets::from_vec(line))
}

/// Adds a line: an order, how many blobs were inserted in it, how many permanodes are found, and the ref of an answer.
/// `NoMemory` comes only where no memory is left; a part of the line may have been added then.
pub fn push_load_line(
    text: &mut Vec<u8>,
    order: &str,
    blobs: u64,
    permanodes: u64,
    answer: &Ref,
) -> Result<(), NoMemory>
    ensures { OnOk result (text.new.items ≡ text.old.items ++ load_line order.now blobs permanodes answer.now) }
{
    text.extend_from_slice(order.as_bytes())?;
    push_counted(text, b" blobs ", blobs)?;
    push_counted(text, b" permanodes ", permanodes)?;
    text.extend_from_slice(b" answer ")?;
    text.extend_from_slice(answer.spell().as_slice())?;
    text.push(b'\n')?;
    Ok(())
}

fn push_counted(text: &mut Vec<u8>, what: &[u8], count: u64) -> Result<(), NoMemory>
    ensures { OnOk result (text.new.items ≡ text.old.items ++ counted what.now count) }
{
    text.extend_from_slice(what)?;
    push_decimal(text, count)
}

fn push_size_line(text: &mut Vec<u8>, r: &Ref, size: u64) -> Result<(), NoMemory>
    ensures { OnOk result (text.new.items ≡ text.old.items ++ size_line (r.now, size)) }
{
    text.extend_from_slice(r.spell().as_slice())?;
    text.push(b' ')?;
    push_decimal(text, size)?;
    text.push(b'\n')?;
    Ok(())
}

fn push_found_line(text: &mut Vec<u8>, pack: u32, place: &Found) -> Result<(), NoMemory>
    ensures { OnOk result (text.new.items ≡ text.old.items ++ found_line pack place.now) }
{
    push_pack_name(text, pack)?;
    text.push(b' ')?;
    push_decimal(text, place.at)?;
    text.push(b' ')?;
    push_size_line(text, &place.r, place.size)
}

fn push_clean_line(text: &mut Vec<u8>, pack: u32, clean: Clean) -> Result<(), NoMemory>
    ensures { OnOk result (text.new.items ≡ text.old.items ++ clean_line pack clean) }
{
    push_pack_name(text, pack)?;
    match clean {
        Clean::Yes => text.extend_from_slice(b" clean\n")?,
        Clean::No { at } => {
            text.extend_from_slice(b" broken ")?;
            push_decimal(text, at)?;
            text.push(b'\n')?;
        }
    }
    Ok(())
}

fn push_pack_name(text: &mut Vec<u8>, pack: u32) -> Result<(), NoMemory>
    ensures { OnOk result (text.new.items ≡ text.old.items ++ pack_name pack) }
{
    text.extend_from_slice(b"pack-")?;
    push_five_digits(text, pack)?;
    text.extend_from_slice(b".blobs")?;
    Ok(())
}

fn push_five_digits(text: &mut Vec<u8>, number: u32) -> Result<(), NoMemory>
    ensures { OnOk result (text.new.items ≡ text.old.items ++ five_digits number) }
{
    let mut digits = Buffer::new();
    let digits = digits.format(number).as_bytes();
    text.extend_from_slice(&b"00000"[..5usize.saturating_sub(digits.len())])?;
    text.extend_from_slice(digits)?;
    Ok(())
}

fn push_decimal(text: &mut Vec<u8>, number: u64) -> Result<(), NoMemory>
    ensures { OnOk result (text.new.items ≡ text.old.items ++ decimal number) }
{
    let mut digits = Buffer::new();
    text.extend_from_slice(digits.format(number).as_bytes())?;
    Ok(())
}
