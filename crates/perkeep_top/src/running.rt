//! A whole run: words, input, disk, answer, output.
ghost use Rattle.std.specs.Prelude.{◌≡◌, Some};
ghost use Rattle.perkeep_words.specs.Reading.{command_of, search_words_in};
ghost use Rattle.top_frame.specs.Frame.{Ends};
ghost use Rattle.top_frame.specs.Outside.{outside, world, world_before, world_after};
ghost use Rattle.top_notes.specs.Meanings.{keys_of};
ghost use Rattle.perkeep_top.specs.Run.{input_fault, meaning_of, IsRefusal, Runs, ReadersPutNothing};
ghost use Rattle.perkeep_top.specs.SearchWords.{search_words_of};

use crate::commands::get::get;
use crate::commands::get_file::get_file;
use crate::commands::list::list;
use crate::commands::load::load;
use crate::commands::put::put;
use crate::commands::put_file::put_file;
use crate::commands::query::query;
use crate::commands::salvage::salvage;
use crate::commands::search::search;
use crate::commands::search_pack::search_pack;
use crate::commands::stat::stat;
use crate::commands::words::words;
use blobref::Text;
use claim_verify::Signer;
use edge_base::{Clock, Dice, Sink, Source};
use pack_disk::Disk;
use peer_base::Peer;
use perkeep_words::{Command, Line, TextFault};
use std::alloc::Global;
use top_frame::{Environment, InputFault, Status};
use top_notes::{claim, delete, multi, permanode};
use top_sync::{pull, push};
use words_read::read_words;

/// Does what the words ask for, as `docs/commands.md` says, over the store that the disk holds, and hands the disk
/// back. It reads all that the source has left where the command reads it, and writes the answer to the sink and
/// nothing else. `push` and `pull` copy blobs to the peer or from it, and the others leave that alone.
///
/// What is wrong is told in this order: the words, the texts in them from left to right, a key that isn't held, a read
/// that failed, an input that is too long or isn't what it should be, a clock or dice that failed, the disk as the
/// store is opened, what the command meets, a write that failed. After `BadWords`, and where a text is wrong or a key
/// isn't held, nothing was touched. After a refusal of the command a front of the blobs that it puts was put, and
/// nothing else, on the disk and at the peer; what it writes as it goes is a front of its output. What it doesn't ask
/// for, the source, the disk, the peer, the clock or the dice, is left alone, and where it only looks at the disk, no
/// moment of that passes. `NoMemory` comes only where no memory is left, and may come at any time. Whatever is
/// answered, a crash at any moment leaves what holds every ref that each image held before.
pub fn run<D: Disk, P: Peer, V: Signer, S: Source, K: Sink, C: Clock, R: Dice>(
    alloc: Global,
    words: &[Text],
    disk: D,
    peer: &mut P,
    keys: &V,
    source: &mut S,
    sink: &mut K,
    clock: &mut C,
    dice: &mut R,
) -> (D, Status)
    ensures { Runs (outside D.Disk P.Peer S.Source K.Sink C.Clock R.Dice)
        (keys_of (V.holds keys.now) (V.seals keys.now) (V.accepts keys.now))
        (search_words_of words.now) (command_of words.now)
        (world disk peer.old source.old sink.old clock.old dice.old)
        (world result.0 peer.new source.new sink.new clock.new dice.new) result.1 }
{
    let Some(line) = Line::read(words) else {
        return (disk, Status::BadWords);
    };
    match line.command() {
        Ok(command) => {
            let environment = Environment {
                peer,
                source,
                sink,
                clock,
                dice,
                keys,
            };
            run_command(alloc, &command, disk, environment)
        }
        Err(fault) => (disk, refusal(alloc, &line, fault)),
    }
}

// How a run ends where a text of its line is wrong: the first one but for search words, which `Line` doesn't judge.
fn refusal(alloc: Global, line: &Line, fault: TextFault) -> Status
    ensures { IsRefusal (search_words_in line.now) fault result }
{
    match line.search_words() {
        None => Status::BadInput(input_fault(fault)),
        Some(text) => refusal_after(alloc, text, fault),
    }
}

// The same where search words stand before that text.
#[tactic(auto, using(crate::proofs::Wording::told_first, crate::proofs::Wording::told_after))]
fn refusal_after(alloc: Global, text: &str, fault: TextFault) -> Status
    ensures { IsRefusal (Some text.now) fault result }
{
    match read_words(alloc, text) {
        Ok(_) => Status::BadInput(input_fault(fault)),
        Err(fault) => Status::from(fault),
    }
}

// What is wrong with a text, as a fault of the input.
fn input_fault(fault: TextFault) -> InputFault
    ensures { result ≡ input_fault fault }
{
    match fault {
        TextFault::BadRef => InputFault::BadRef,
        TextFault::BadDate => InputFault::BadDate,
        TextFault::BadNumber => InputFault::BadNumber,
        TextFault::BadName => InputFault::BadName,
    }
}

// Does what a command asks for.
fn run_command<D: Disk, P: Peer, S: Source, K: Sink, C: Clock, R: Dice, V: Signer>(
    alloc: Global,
    command: &Command,
    disk: D,
    environment: Environment<'_, P, S, K, C, R, V>,
) -> (D, Status)
    ensures { Ends (outside D.Disk P.Peer S.Source K.Sink C.Clock R.Dice)
        (meaning_of D.Disk disk (keys_of (V.holds environment.entry.keys.now)
        (V.seals environment.entry.keys.now) (V.accepts environment.entry.keys.now)) command.now)
        (world_before disk environment.entry) (world_after result.0 environment.exit) result.1 }
{
    match command {
        Command::Put { dir: _ } => put(alloc, disk, environment),
        Command::Get { dir: _, r } => get(alloc, r, disk, environment),
        Command::Stat { dir: _, r } => stat(alloc, r, disk, environment),
        Command::List {
            dir: _,
            after,
            limit,
        } => list(alloc, after.as_ref(), *limit, disk, environment),
        Command::Search {
            dir: _,
            attr,
            value,
            at,
        } => search(alloc, attr.as_str(), value.as_str(), *at, disk, environment),
        Command::Words { dir: _, text, at } => {
            words(alloc, text.as_str(), *at, disk, environment)
        }
        Command::Salvage { dir: _ } => salvage(alloc, disk, environment),
        Command::Permanode { dir: _, key } => permanode(alloc, key, disk, environment),
        Command::Claim {
            dir: _,
            kind,
            r,
            attr,
            value,
            key,
        } => claim(
            alloc,
            *kind,
            r,
            attr.as_str(),
            value.as_str(),
            key,
            disk,
            environment,
        ),
        Command::Multi { dir: _, key } => multi(alloc, key, disk, environment),
        Command::Delete { dir: _, r, key } => delete(alloc, r, key, disk, environment),
        Command::PutFile { dir: _, name } => put_file(alloc, name.as_str(), disk, environment),
        Command::GetFile { dir: _, r } => get_file(alloc, r, disk, environment),
        Command::Push { dir: _, addr: _ } => push(alloc, disk, environment),
        Command::Pull { dir: _, addr: _ } => pull(alloc, disk, environment),
        Command::Query { dir: _ } => query(alloc, disk, environment),
        Command::Load { count, start } => load(alloc, count.get(), *start, disk, environment),
        Command::SearchPack { attr, value } => {
            search_pack(alloc, attr.as_str(), value.as_str(), disk, environment)
        }
    }
}

/// The law that a command whose line is said not to write (`Line::writes`) puts nothing: so who runs it needs no lock
/// on the store.
pub fn readers_put_nothing<D: Disk>()
    ensures { ReadersPutNothing D.Disk }
{}
