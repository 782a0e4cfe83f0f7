//! The index that keeps its facts alone: over claims that stand, are deleted and undeleted, and over file trees.
ghost use Rattle.std.specs.Prelude.{◌≡◌, ◌<◌};

use crate::blobs::{
    DELETE, DELETE_AGAIN, FORGED, KEY, LOW, MAIN_IN_LOW, PERMANODE, TAG, UNDELETE, index_of,
    time_of,
};
use blobref::{NoMemory, Ref, RefList, TextList};
use claim_verify::Keyring;
use edge_base::Steps;
use index_look::Look;
use plain_index::PlainIndex;
use schema_date::{Date, When};
use std::alloc::Global;
use std::marker::Brand;
use std::sync::ledger::{Blank, Ledger};

// A tagged permanode in each order of its blobs, and with a claim that is signed falsely.
const TAGGED: [&[&str]; 7] = [
    &[KEY, PERMANODE, TAG],
    &[KEY, TAG, PERMANODE],
    &[PERMANODE, KEY, TAG],
    &[PERMANODE, TAG, KEY],
    &[TAG, KEY, PERMANODE],
    &[TAG, PERMANODE, KEY],
    &[FORGED, KEY, PERMANODE, TAG],
];

// Two chunks, and file trees over them: the sizes are those of their parts together.
const HELLO: &str = "hello ";

const WORLD: &str = "world\n";

const WHOLE: &str =
    r#"{"camliVersion":1,"camliType":"file","parts":[{"blobRef":"sha224-fd4ddb6699f418b0897cb4d18140284748415d3c9ecfb1ce09e93ae7","size":6},{"blobRef":"sha224-c5ae6e4ed4d8c0aec0f671978451411c37c765b76cda4050152e85a0","size":6}]}"#;

// From its second byte on the first chunk has five bytes, not six.
const BEYOND: &str =
    r#"{"camliVersion":1,"camliType":"file","parts":[{"blobRef":"sha224-fd4ddb6699f418b0897cb4d18140284748415d3c9ecfb1ce09e93ae7","size":6,"offset":1}]}"#;

const INNER: &str =
    r#"{"camliVersion":1,"camliType":"bytes","parts":[{"blobRef":"sha224-fd4ddb6699f418b0897cb4d18140284748415d3c9ecfb1ce09e93ae7","size":6},{"blobRef":"sha224-c5ae6e4ed4d8c0aec0f671978451411c37c765b76cda4050152e85a0","size":6}]}"#;

// The last nine of the twelve bytes of the tree within, five zeros, and one byte of the tree again.
const OUTER: &str =
    r#"{"camliVersion":1,"camliType":"file","parts":[{"bytesRef":"sha224-796b4795d772927462373aeb21f418931b98e66b533866a4d1848afa","size":9,"offset":3},{"size":5},{"bytesRef":"sha224-796b4795d772927462373aeb21f418931b98e66b533866a4d1848afa","size":1}]}"#;

const TOO_FAR: &str =
    r#"{"camliVersion":1,"camliType":"file","parts":[{"bytesRef":"sha224-796b4795d772927462373aeb21f418931b98e66b533866a4d1848afa","size":10,"offset":3}]}"#;

// A chunk is no tree.
const NO_TREE: &str =
    r#"{"camliVersion":1,"camliType":"file","parts":[{"bytesRef":"sha224-fd4ddb6699f418b0897cb4d18140284748415d3c9ecfb1ce09e93ae7","size":6}]}"#;

// A file over a chunk that is not there.
const WAITS: &str =
    r#"{"camliVersion":1,"camliType":"file","parts":[{"blobRef":"sha224-a69e13094bcb2fad05dd97c63c923430d0e5972f007a2372e823bc2f","size":7}]}"#;

const UNSOUND: &str =
    r#"{"camliVersion":1,"camliType":"bytes","parts":[{"blobRef":"sha224-fd4ddb6699f418b0897cb4d18140284748415d3c9ecfb1ce09e93ae7","size":7}]}"#;

const OVER_UNSOUND: &str =
    r#"{"camliVersion":1,"camliType":"file","parts":[{"bytesRef":"sha224-c5e05ad72a7c6250cd7b06a67631cd94cfc411276a3c06f5c5c92ef3","size":1}]}"#;

// The tag with its three deletions, a permanode with the tagged one as its member, and the trees.
const ALL: [&str; 19] = [
    DELETE_AGAIN,
    UNDELETE,
    DELETE,
    TAG,
    MAIN_IN_LOW,
    PERMANODE,
    LOW,
    KEY,
    OVER_UNSOUND,
    UNSOUND,
    WAITS,
    NO_TREE,
    TOO_FAR,
    OUTER,
    INNER,
    BEYOND,
    WHOLE,
    WORLD,
    HELLO,
];

// The tag is deleted on the 3rd, undeleted on the 4th and deleted again on the 5th.
const GONE: [(&str, bool); 5] = [
    ("2014-01-02T12:00:00Z", false),
    ("2014-01-03T00:00:00Z", true),
    ("2014-01-04T00:00:00Z", false),
    ("2014-01-05T00:00:00Z", true),
    ("always", true),
];

const UNDELETED: &str = "2014-01-04T12:00:00Z";

// The ref of the permanode.
const MEMBER: &str = "sha224-01d0f2ac408584236db9de88e8cbd79887704db69e188875443566b5";

const SIZES: [(&str, Option<u64>); 9] = [
    (WHOLE, Some(12)),
    (OUTER, Some(15)),
    (BEYOND, None),
    (INNER, None),
    (TOO_FAR, None),
    (NO_TREE, None),
    (WAITS, None),
    (OVER_UNSOUND, None),
    (HELLO, None),
];

fn is_one_text(texts: &TextList, want: &str) -> bool {
    texts.len() == 1 && texts.at(0).as_str() == want
}

fn is_one_ref(refs: &RefList, want: &str) -> bool {
    refs.len() == 1 && *refs.at(0) == Ref::of(want.as_bytes())
}

// Whether the permanode is the one, and changed when it was tagged.
fn is_one_permanode<L: Ledger>(index: &PlainIndex<Keyring>, steps: &mut Steps<L>) -> bool {
    let p = Ref::of(PERMANODE.as_bytes());
    index.fact_of(&p, steps).is_some()
        && index.is_permanode(&p, steps)
        && index.permanode_after(None, steps) == Some(p)
        && index.permanode_after(Some(&p), steps).is_none()
        && index.last_change(&p, &When::Always, steps) == Date::read(b"2014-01-02T00:00:00Z")
}

// Whether the tag is the permanode's one tag, from its date on.
fn has_tag<L: Ledger>(index: &PlainIndex<Keyring>, steps: &mut Steps<L>) -> Result<bool, NoMemory> {
    let p = Ref::of(PERMANODE.as_bytes());
    let now = index.values(&p, "tag", &When::Always, steps)?;
    let before = index.values(&p, "tag", &time_of("2014-01-01T23:59:59Z"), steps)?;
    Ok(is_one_text(&now, "sunset") && before.len() == 0)
}

// Whether the permanode alone holds the tag, and is nobody's member.
fn is_one_holder<L: Ledger>(
    index: &PlainIndex<Keyring>,
    steps: &mut Steps<L>,
) -> Result<bool, NoMemory> {
    let holders = index.holders("tag", "sunset", steps)?;
    let parents = index.parents(&Ref::of(PERMANODE.as_bytes()), &When::Always, steps)?;
    Ok(is_one_ref(&holders, PERMANODE) && parents.len() == 0)
}

fn is_tagged<L: Ledger>(alloc: Global, blobs: &[&str], blank: Blank) -> Result<bool, NoMemory>
    requires name { blank.name ≡ L.name }
    requires parts { blank.parts ≡ L.parts }
    requires some { 0 < blank.parts }
{
    let mut steps = Steps::<L>::start(blank);
    let index = index_of(alloc, blobs)?;
    Ok(
        is_one_permanode(&index, &mut steps)
            && has_tag(&index, &mut steps)?
            && is_one_holder(&index, &mut steps)?,
    )
}

#[test]
fn a_tagged_permanode_is_seen_in_each_order(rt: HostRuntime) -> Result<(), NoMemory> {
    for blobs in TAGGED {
        assert!(rt; is_tagged::<Brand>(rt.alloc(), blobs, Blank::new(1))?);
    }
    Ok(())
}

// Whether without the key nothing is ready, and nothing genuine.
fn is_unknown<L: Ledger>(alloc: Global, blank: Blank) -> Result<bool, NoMemory>
    requires name { blank.name ≡ L.name }
    requires parts { blank.parts ≡ L.parts }
    requires some { 0 < blank.parts }
{
    let mut steps = Steps::<L>::start(blank);
    let index = index_of(alloc, &[PERMANODE, TAG])?;
    let tag = Ref::of(TAG.as_bytes());
    Ok(
        index.permanode_after(None, &mut steps).is_none()
            && index.fact_of(&tag, &mut steps).is_none(),
    )
}

// Whether the tag is deleted just at those of the times.
fn is_gone_in_time<L: Ledger>(index: &PlainIndex<Keyring>, steps: &mut Steps<L>) -> bool {
    let tag = Ref::of(TAG.as_bytes());
    for (when, want) in GONE {
        if index.deleted(&tag, &time_of(when), steps) != want {
            return false;
        }
    }
    true
}

// Whether the permanode is a member of the low one, from the claim's date on.
fn is_member<L: Ledger>(
    index: &PlainIndex<Keyring>,
    steps: &mut Steps<L>,
) -> Result<bool, NoMemory> {
    let p = Ref::of(PERMANODE.as_bytes());
    let now = index.parents(&p, &When::Always, steps)?;
    let before = index.parents(&p, &time_of("2014-01-02T23:00:00Z"), steps)?;
    Ok(is_one_ref(&now, LOW) && before.len() == 0)
}

// Whether each file has its size.
fn have_sizes<L: Ledger>(index: &PlainIndex<Keyring>, steps: &mut Steps<L>) -> bool {
    for (blob, want) in SIZES {
        if index.file_size(&Ref::of(blob.as_bytes()), steps) != want {
            return false;
        }
    }
    true
}

// Whether the low permanode comes before the other, which changed last when it was tagged, as of a time when the tag
// stands.
fn are_two_permanodes<L: Ledger>(index: &PlainIndex<Keyring>, steps: &mut Steps<L>) -> bool {
    let p = Ref::of(PERMANODE.as_bytes());
    let low = Ref::of(LOW.as_bytes());
    index.permanode_after(None, steps) == Some(low)
        && index.permanode_after(Some(&low), steps) == Some(p)
        && index.last_change(&p, &time_of(UNDELETED), steps) == Date::read(b"2014-01-02T00:00:00Z")
}

// Whether the value and the parent stand at that time.
fn has_values_then<L: Ledger>(
    index: &PlainIndex<Keyring>,
    steps: &mut Steps<L>,
) -> Result<bool, NoMemory> {
    let p = Ref::of(PERMANODE.as_bytes());
    let then = time_of(UNDELETED);
    let values = index.values(&p, "tag", &then, steps)?;
    let parents = index.parents(&p, &then, steps)?;
    Ok(is_one_text(&values, "sunset") && is_one_ref(&parents, LOW))
}

// Whether a value that stands by now has its holder, and one that doesn't has none.
fn has_holders<L: Ledger>(
    index: &PlainIndex<Keyring>,
    steps: &mut Steps<L>,
) -> Result<bool, NoMemory> {
    let none = index.holders("tag", "sunset", steps)?;
    let low = index.holders("camliMember", MEMBER, steps)?;
    Ok(none.len() == 0 && is_one_ref(&low, LOW))
}

// Whether an index over all blobs answers so.
fn answers_in_time<L: Ledger>(alloc: Global, blank: Blank) -> Result<bool, NoMemory>
    requires name { blank.name ≡ L.name }
    requires parts { blank.parts ≡ L.parts }
    requires some { 0 < blank.parts }
{
    let mut steps = Steps::<L>::start(blank);
    let index = index_of(alloc, &ALL)?;
    let is_told = is_gone_in_time(&index, &mut steps)
        && have_sizes(&index, &mut steps)
        && are_two_permanodes(&index, &mut steps);
    Ok(
        is_told
            && is_member(&index, &mut steps)?
            && has_values_then(&index, &mut steps)?
            && has_holders(&index, &mut steps)?,
    )
}

#[test]
fn an_index_answers_in_time(rt: HostRuntime) -> Result<(), NoMemory> {
    assert!(rt; is_unknown::<Brand>(rt.alloc(), Blank::new(1))?);
    assert!(rt; answers_in_time::<Brand>(rt.alloc(), Blank::new(1))?);
    Ok(())
}
