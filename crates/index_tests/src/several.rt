//! Claims of several changes over the index that is computed from all facts, and lists of changes.
ghost use Rattle.std.specs.Prelude.{◌≡◌, ◌<◌, length};

use crate::blobs::{KEY, LOW, PERMANODE, index_of};
use blobref::{NoMemory, Ref};
use claim_verify::Keyring;
use edge_base::Steps;
use index_look::Look;
use plain_index::PlainIndex;
use schema_date::When;
use schema_fact::{Act, ChangeList, Kind};
use schema_json::{change_list, fact};
use std::alloc::Global;
use std::marker::Brand;
use std::sync::ledger::{Blank, Ledger};

// Of 2020-01-02, on the tags of the permanode: set to a, set to b.
const SET_TWICE: &str =
    r#"{"camliVersion":1,"camliType":"claim","camliSigner":"sha224-da4a89851a3c8f7ce55ef510378a1b717451b9f0b152bb73f28508dc","claimDate":"2020-01-02T00:00:00Z","claimType":"multi","changes":[{"changeType":"set-attribute","permaNode":"sha224-01d0f2ac408584236db9de88e8cbd79887704db69e188875443566b5","attribute":"tag","value":"a"},{"changeType":"set-attribute","permaNode":"sha224-01d0f2ac408584236db9de88e8cbd79887704db69e188875443566b5","attribute":"tag","value":"b"}],"camliSig":"f9a2bee5e37b691cd201d83a279d20fe880c8c915bb82c6536ddcb9a8949165f"}"#;

// Add a, add a, del a, add c.
const ADDED: &str =
    r#"{"camliVersion":1,"camliType":"claim","camliSigner":"sha224-da4a89851a3c8f7ce55ef510378a1b717451b9f0b152bb73f28508dc","claimDate":"2020-01-02T00:00:00Z","claimType":"multi","changes":[{"changeType":"add-attribute","permaNode":"sha224-01d0f2ac408584236db9de88e8cbd79887704db69e188875443566b5","attribute":"tag","value":"a"},{"changeType":"add-attribute","permaNode":"sha224-01d0f2ac408584236db9de88e8cbd79887704db69e188875443566b5","attribute":"tag","value":"a"},{"changeType":"del-attribute","permaNode":"sha224-01d0f2ac408584236db9de88e8cbd79887704db69e188875443566b5","attribute":"tag","value":"a"},{"changeType":"add-attribute","permaNode":"sha224-01d0f2ac408584236db9de88e8cbd79887704db69e188875443566b5","attribute":"tag","value":"c"}],"camliSig":"4021a0527c6aa0ba919b5770954d1026000022b112796d87b3109b95b00e0290"}"#;

// Set to a, there and on the low permanode; and the deletion of this claim, a day later.
const BOTH: &str =
    r#"{"camliVersion":1,"camliType":"claim","camliSigner":"sha224-da4a89851a3c8f7ce55ef510378a1b717451b9f0b152bb73f28508dc","claimDate":"2020-01-02T00:00:00Z","claimType":"multi","changes":[{"changeType":"set-attribute","permaNode":"sha224-01d0f2ac408584236db9de88e8cbd79887704db69e188875443566b5","attribute":"tag","value":"a"},{"changeType":"set-attribute","permaNode":"sha224-00eeaf8019242079449364c2bdc2d6222fa8930c076dca3cd550587a","attribute":"tag","value":"a"}],"camliSig":"1b076f5ada7578d5e8434683a61f8666564e75cd1330323f3c1a97ec76184335"}"#;

const DELETE_BOTH: &str =
    r#"{"camliVersion":1,"camliType":"claim","camliSigner":"sha224-da4a89851a3c8f7ce55ef510378a1b717451b9f0b152bb73f28508dc","claimDate":"2020-01-03T00:00:00Z","claimType":"delete","target":"sha224-acf8723e139eee74b1e9dca1fa9a6e39a0750ce537bc571a4939e193","camliSig":"e97feac5b09d0d0929f80a79dcff00efaabe89e37d3babade3be584c9b72fddf"}"#;

// An empty list.
const NO_CHANGES: &str =
    r#"{"camliVersion":1,"camliType":"claim","camliSigner":"sha224-da4a89851a3c8f7ce55ef510378a1b717451b9f0b152bb73f28508dc","claimDate":"2020-01-02T00:00:00Z","claimType":"multi","changes":[],"camliSig":"069f03e0b2974c6a40910905919b818b202efe98956aeb4dc3714f4786f33df3"}"#;

// Blobs, and the one tag that each of their permanodes then has, or the empty text where it has none.
const ROWS: [(&[&str], &str); 7] = [
    (&[KEY, PERMANODE, SET_TWICE], "b"),
    (&[KEY, PERMANODE, ADDED], "c"),
    (&[KEY, PERMANODE, LOW, BOTH], "a"),
    (&[BOTH, LOW, PERMANODE, KEY], "a"),
    (&[KEY, PERMANODE, LOW, BOTH, DELETE_BOTH], ""),
    (&[DELETE_BOTH, BOTH, LOW, PERMANODE, KEY], ""),
    (&[KEY, PERMANODE, NO_CHANGES], ""),
];

// Lists of changes, and how many they have; 0 where it is none.
const LISTS: [(&str, usize); 4] = [
    (
        r#" [{"changeType":"del-attribute","permaNode":"sha224-01d0f2ac408584236db9de88e8cbd79887704db69e188875443566b5","attribute":"tag"}, {"changeType":"set-attribute","permaNode":"sha224-01d0f2ac408584236db9de88e8cbd79887704db69e188875443566b5","attribute":"tag","value":"","n":[]}] "#,
        2,
    ),
    (
        r#"[{"changeType":"set-attribute","permaNode":"sha224-01d0f2ac408584236db9de88e8cbd79887704db69e188875443566b5","attribute":"tag"}]"#,
        0,
    ),
    ("[]", 0),
    ("{", 0),
];

// Whether a permanode has just this tag, or none where it is empty.
fn has_tag<L: Ledger>(
    index: &PlainIndex<Keyring>,
    permanode: &str,
    want: &str,
    steps: &mut Steps<L>,
) -> Result<bool, NoMemory> {
    let tags = index.values(&Ref::of(permanode.as_bytes()), "tag", &When::Always, steps)?;
    if want.is_empty() {
        return Ok(tags.len() == 0);
    }
    Ok(tags.len() == 1 && tags.at(0).as_str() == want)
}

// Whether both permanodes have just this tag, the low one where it is there.
fn are_tagged<L: Ledger>(
    alloc: Global,
    blobs: &[&str],
    want: &str,
    steps: &mut Steps<L>,
) -> Result<bool, NoMemory> {
    let index = index_of(alloc, blobs)?;
    let low = Ref::of(LOW.as_bytes());
    let low_want = if index.is_permanode(&low, steps) {
        want
    } else {
        ""
    };
    Ok(has_tag(&index, PERMANODE, want, steps)? && has_tag(&index, LOW, low_want, steps)?)
}

fn rows_are_told<L: Ledger>(alloc: Global, blank: Blank) -> Result<bool, NoMemory>
    requires name { blank.name ≡ L.name }
    requires parts { blank.parts ≡ L.parts }
    requires some { 0 < blank.parts }
{
    let mut steps = Steps::<L>::start(blank);
    for (blobs, want) in ROWS {
        if !are_tagged(alloc, blobs, want, &mut steps)? {
            return Ok(false);
        }
    }
    Ok(true)
}

#[test]
fn several_changes_count_in_their_order(rt: HostRuntime) -> Result<(), NoMemory> {
    assert!(rt; rows_are_told::<Brand>(rt.alloc(), Blank::new(1))?);
    Ok(())
}

// Whether a claim of no changes is a claim that isn't read.
fn is_unread(alloc: Global) -> Result<bool, NoMemory> {
    match &fact(alloc, NO_CHANGES.as_bytes())?.kind {
        Kind::Unread(name) => Ok(name.as_str() == "claim"),
        _ => Ok(false),
    }
}

// Whether the last change sets the empty value.
fn ends_in_set(changes: &ChangeList) -> bool
    requires { 0 < length changes.now }
{
    let last = changes.at(changes.len() - 1);
    last.act == Act::Set && last.value.as_str() == ""
}

fn is_listed(alloc: Global, text: &str, want: usize) -> Result<bool, NoMemory> {
    match change_list(alloc, text.as_bytes())? {
        Some(changes) => Ok(0 < changes.len() && changes.len() == want && ends_in_set(&changes)),
        None => Ok(want == 0),
    }
}

#[test]
fn lists_have_their_changes(rt: HostRuntime) -> Result<(), NoMemory> {
    assert!(rt; is_unread(rt.alloc())?);
    for (text, want) in LISTS {
        assert!(rt; is_listed(rt.alloc(), text, want)?, "{text}");
    }
    Ok(())
}
