//! Where the words name the folder of the store, and the address of a peer.
ghost use Rattle.std.specs.Prelude.{◌≡◌, ◌||◌, None, is_some};
ghost use Rattle.perkeep_words.specs.Parts.{start};
ghost use Rattle.perkeep_words.specs.Reading.{line_named, line_of};
ghost use Rattle.perkeep_words.specs.Places.{IsDirPlace, IsAddrPlace, OnePlaceEach, nth_position, is_position, line_has_dir, line_has_addr, says_dir, says_addr, place_if};

use crate::mirroring::is_mirror;
use crate::parts::{Part, State};
use crate::place::Places;
use crate::serving::serve_words;
use crate::sharing::share_words;
use crate::table::CommandName;
use blobref::Text;

/// The places of DIR and ADDR in the words, of the first ADDR where there are several. Each is None exactly where the
/// words are no line that has it, whatever the line's texts say (docs/commands.md); a line of `serve`,
/// `serve-shares` or `mirror` is one. It takes no memory.
pub fn places(words: &[Text]) -> Places
    ensures dir { IsDirPlace words.now result.dir }
    ensures addr { IsAddrPlace words.now result.addr }
{
    Places {
        dir: place_if(says_dir(words), 0, words),
        addr: place_if(says_addr(words), 1, words),
    }
}

// The place of the position before which so many others stand, if the words are a line that has it.
fn place_if(has: bool, count: usize, words: &[Text]) -> Option<usize>
    ensures { result ≡ place_if has count words.now }
{
    if has {
        nth_position(count, words.split_first()?.1)
    } else {
        None
    }
}

// Whether the words are a line that has DIR.
fn says_dir(words: &[Text]) -> bool
    ensures { result ≡ says_dir words.now }
{
    serve_words(words).is_some()
        || share_words(words).is_some()
        || is_mirror(words)
        || is_command_with_dir(words)
}

// Whether the words are a command's line that has DIR.
fn is_command_with_dir(words: &[Text]) -> bool
    ensures { result ≡ line_has_dir (line_of words.now) }
{
    let Some((word, behind)) = words.split_first() else {
        return false;
    };
    match CommandName::of(word.as_str()) {
        Some(name) => is_line_with_dir(name, behind),
        None => false,
    }
}

// Whether the words behind the command's name make a line that has DIR.
fn is_line_with_dir(name: CommandName, behind: &[Text]) -> bool
    ensures { result ≡ line_has_dir (line_named behind.now name) }
{
    let form = name.form();
    form.has_line(behind) && form.begins_at_dir()
}

// Whether the words are a line that has ADDR.
fn says_addr(words: &[Text]) -> bool
    ensures { result ≡ says_addr words.now }
{
    is_mirror(words) || is_command_with_addr(words)
}

// Whether the words are a command's line that has ADDR.
fn is_command_with_addr(words: &[Text]) -> bool
    ensures { result ≡ line_has_addr (line_of words.now) }
{
    let Some((word, behind)) = words.split_first() else {
        return false;
    };
    match CommandName::of(word.as_str()) {
        Some(name) => is_line_with_addr(name, behind),
        None => false,
    }
}

// Whether the words behind the command's name make a line that has ADDR.
fn is_line_with_addr(name: CommandName, behind: &[Text]) -> bool
    ensures { result ≡ line_has_addr (line_named behind.now name) }
{
    let form = name.form();
    form.has_line(behind) && form.goes_on_with_addr()
}

// The place of the position before which so many others stand, of the words behind the command's name.
fn nth_position(count: usize, behind: &[Text]) -> Option<usize>
    ensures { result ≡ nth_position count start 1 behind.now }
{
    let mut state = State::start();
    let mut left = count;
    for (i, word) in behind.iter().enumerate() {
        let (next, part) = state.step(word)?;
        if is_position(&part) {
            if left == 0 {
                return Some(i + 1);
            }
            left -= 1;
        }
        state = next;
    }
    None
}

fn is_position(part: &Option<Part>) -> bool
    ensures { result ≡ is_position part.now }
{
    match part {
        Some(part) => part.name.is_none(),
        None => false,
    }
}

/// What `places` tells is the one thing that can be told: at most one place meets what it says of the place of DIR, and
/// none does where it tells none; and so it is for ADDR.
pub fn places_agree()
    ensures { OnePlaceEach }
{}
