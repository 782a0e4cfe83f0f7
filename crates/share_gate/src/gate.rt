//! Verdicts by tables.
ghost use Rattle.std.specs.Prelude.{◌≡◌, ◌++◌, ◌∷◌, [], ◌≤◌, length, drop, get_or, None};
ghost use Rattle.share_gate.specs.Gates.{gate_has_link, gate_missing_from, gate_after_share, gate_at_end, gate_verdict};
ghost use Rattle.share_gate.specs.Gates.{IsVerdict};

use crate::ref_map::RefMap;
use blobref::{Ref, RefList, RefSet};
use share_model::{Rule, Verdict};

/// What a gate keeps of a share.
#[derive(Clone, Copy)]
pub struct ShareRow {
    pub target: Ref,
    pub transitive: bool,
    pub genuine: bool,
}

/// The tables of a store from which verdicts are computed: its refs, the links of the blobs that have some, its shares,
/// and the deleted refs. It takes 29 bytes for each ref and each link, and about 120 for each blob that has links.
#[derive(Drop)]
pub struct ShareGate {
    pub(crate) refs: RefSet,
    pub(crate) links: RefMap<RefSet>,
    pub(crate) shares: RefMap<ShareRow>,
    pub(crate) deleted: RefSet,
}

impl ShareGate {
    /// The verdict on the path of the refs of `via` followed by `r`, over each store that has these tables. It takes no
    /// memory. For each ref it takes a look-up and a search among the links of the one before.
    pub fn verdict(&self, r: &Ref, via: &RefList) -> Verdict
        ensures own { result ≡ gate_verdict self.now r.now via.now }
        ensures is { IsVerdict self.now r.now via.now result }
    {
        self.by_tables(r, via.as_slice())
    }

    fn by_tables(&self, r: &Ref, via: &[Ref]) -> Verdict
        ensures { result ≡ gate_verdict self.now r.now via.now }
    {
        let first = ref_at(r, via, 0);
        let row = match self.shares.get(&first) {
            None => return Verdict::Denied(Rule::NoShare),
            Some(row) => row,
        };
        if !row.genuine {
            return Verdict::Denied(Rule::NotGenuine);
        }
        if self.deleted.contains(&first) {
            return Verdict::Denied(Rule::Deleted);
        }
        self.after_share(row, r, via)
    }

    // The verdict if the path begins with a share that counts.
    fn after_share(&self, row: &ShareRow, r: &Ref, via: &[Ref]) -> Verdict
        ensures { result ≡ gate_after_share self.now row.now r.now (drop 1 (via.now ++ r.now ∷ [])) }
    {
        if via.len() == 0 {
            return Verdict::Served;
        }
        if ref_at(r, via, 1) != row.target {
            return Verdict::Denied(Rule::WrongTarget);
        }
        if via.len() == 1 {
            return self.at_end(r);
        }
        if !row.transitive {
            return Verdict::Denied(Rule::NotTransitive);
        }
        match self.missing_link(r, via) {
            Some(at) => Verdict::Denied(Rule::NoLink { at }),
            None => self.at_end(r),
        }
    }

    fn at_end(&self, r: &Ref) -> Verdict
        ensures { result ≡ gate_at_end self.now r.now None }
    {
        if self.refs.contains(r) {
            Verdict::Served
        } else {
            Verdict::Absent
        }
    }

    // The first place of the path after the target's whose ref isn't linked from the one before.
    fn missing_link(&self, r: &Ref, via: &[Ref]) -> Option<u64>
        requires { 2 ≤ length via.now }
        ensures { result ≡ gate_missing_from self.now r.now via.now 2 }
    {
        let mut i = 2usize;
        'links: while i < via.len() {
            if !self.has_link(&via[i - 1], &via[i]) {
                return Some(i as u64);
            }
            i += 1;
        }
        if !self.has_link(&via[i - 1], r) {
            return Some(i as u64);
        }
        None
    }

    fn has_link(&self, p: &Ref, r: &Ref) -> bool
        ensures { result ≡ gate_has_link self.now p.now r.now }
    {
        match self.links.get(p) {
            Some(refs) => refs.contains(r),
            None => false,
        }
    }
}

// The ref at a place of `via`; r after its end.
fn ref_at(r: &Ref, via: &[Ref], i: usize) -> Ref
    ensures { result ≡ get_or via.now i r.now }
{
    match via.get(i) {
        Some(x) => *x,
        None => *r,
    }
}
