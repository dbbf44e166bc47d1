//! The members of the objects that are open.
ghost use Rattle.std.specs.Prelude.{◌≡◌, ◌<◌, ◌≤◌, [], ℕ, Bool, List, true, length, drop, take, slice_range, IfOk, IfSome, IsTrue, MatchBool, OnOk, vec_capacity, vec_len};
ghost use Rattle.std.specs.Option.{is_some};
ghost use Rattle.std.specs.Str.{IsUtf8};
ghost use Rattle.text_members.specs.OpenMembers.{repeat_among};

use crate::members::{
    Member, Spare, ascend, few_differ, key_at, prefix_within, put_in_order, search_repeat,
};
use crate::object::{Keys, Site};
use std::alloc::{AllocError, Global};

// So many times the bytes of the text may be moved, and a little more.
const MOST_MOVED: usize = 8;

// Most objects have at most so many members.
const MOST_MEMBERS: usize = 16;

/// Where a key comes twice in an object: the index of its first member among those that are open, and the index behind
/// that one of the member where the key comes the second time.
#[derive(Clone, Copy)]
pub struct Repeat {
    pub first: usize,
    pub index: usize,
}

/// Why the members of an object aren't put in order.
#[derive(Clone, Copy)]
pub enum Unsettled {
    /// No memory could be had.
    OutOfMemory,
    /// So many bytes of members were moved before, several times those of the text, that another way takes less time.
    MovedMuch,
}

impl From<AllocError> for Unsettled {
    ghost use Rattle.text_members.specs.declared.open_members.Unsettled.TheVariants.{OutOfMemory};

    ghost from_gives = { λ _ e. e ≡ OutOfMemory };

    fn from(_: AllocError) -> Unsettled {
        Unsettled::OutOfMemory
    }
}

/// The members of the objects that are open, those of the outermost first. A key that isn't in the text is
/// among the decoded ones.
#[derive(Drop)]
pub struct OpenMembers<'a> {
    pub text: &'a [u8],
    pub entries: Vec<Member>,
    pub decoded: Vec<u8>,
    pub spare: Spare,
}

// Makes space for a member more. The first time it is for those of most objects.
#[cold]
#[inline(never)]
fn grow(entries: &mut Vec<Member>) -> Result<(), AllocError>
    ensures same { entries.new.items ≡ entries.old.items }
    ensures space { OnOk result (vec_len entries.new < vec_capacity entries.new) }
{
    let more = if entries.is_empty() { MOST_MEMBERS } else { 1 };
    entries.try_reserve(more)
}

// The members from an index on.
#[inline(always)]
fn members_from(entries: &Vec<Member>, first: usize) -> &[Member]
    ensures { result.now ≡ drop first entries.now.items }
{
    let count = entries.len();
    &entries[first.min(count)..]
}

// A repeat among the members from an index on.
#[inline(always)]
fn repeat_from(first: usize, found: Option<usize>) -> Option<Repeat>
    ensures { result ≡ repeat_among first found }
{
    match found {
        Some(index) => Some(Repeat { first, index }),
        None => None,
    }
}

impl<'a> OpenMembers<'a> {
    ghost use Rattle.jsonb_spec.specs.Source.{Found};
    ghost use Rattle.jsonb_spec.specs.Text.Appending.{Extends};
    ghost use Rattle.text_members.specs.Members.{WasCopied};
    ghost use Rattle.text_members.specs.OpenMembers.{AreOf, AreSame, Begins, Closes, EndIn, FindsRepeat, HasMember, KeysAscendFrom, Layout, PutsInOrder, spot_at_repeat};

    /// No object is open.
    pub fn new(alloc: Global, text: &'a [u8]) -> OpenMembers<'a>
        ensures { (layout : Layout) → AreOf layout text.entry.now result true [] }
    {
        OpenMembers {
            text,
            entries: Vec::new(alloc),
            decoded: Vec::new(alloc),
            spare: Spare::new(alloc),
        }
    }

    /// No object is open, of another text.
    #[inline(always)]
    pub fn restart(&mut self, text: &'a [u8])
        ensures { (layout : Layout) → AreOf layout text.entry.now self.new true [] }
    {
        self.text = text;
        self.entries.clear();
        self.decoded.clear();
        self.spare.total = 0;
    }

    /// How many there are.
    #[inline(always)]
    pub fn len(&self) -> usize
        ensures { result ≡ length self.now.entries.items }
    {
        self.entries.len()
    }

    /// Whether this range of the text has bytes. It is told by the index of the last one, where a key's bytes end.
    #[inline(always)]
    pub fn has_range(&self, from: usize, to: usize) -> bool
        ensures { MatchBool result ((from < to) × (to ≤ length self.now.text.now)) (Unit {0}) }
    {
        let last = to.wrapping_sub(1);
        from <= last && last < self.text.len()
    }

    // Stores what is known of a member.
    #[inline(always)]
    fn preserve(&mut self, member: Member) -> Result<(), AllocError>
        ensures { OnOk result (HasMember member [] self.old self.new) }
    {
        if self.entries.len() == self.entries.capacity() {
            grow(&mut self.entries)?;
        }
        self.entries.push_reserved(member);
        Ok(())
    }

    /// Begins a member whose key is there in the text, given the index after the key, and where the member begins
    /// in what is written.
    #[inline(always)]
    pub fn begin_within(
        &mut self,
        from: usize,
        to: usize,
        after: usize,
        start: usize,
    ) -> Result<(), AllocError>
        ensures { OnOk result (from ≤ to → to ≤ length self.old.text.now →
            Begins (slice_range self.old.text.now from to) after start self.old self.new) }
    {
        let member = Member {
            prefix: prefix_within(self.text, from, to),
            from,
            to,
            start,
            after,
            decoded: false,
        };
        self.preserve(member)
    }

    /// Begins a member whose key isn't in the text, or isn't known to.
    #[inline(never)]
    pub fn begin_decoded(&mut self, key: &str, after: usize, start: usize) -> Result<(), AllocError>
        ensures { OnOk result (Begins key.now after start self.old self.new) }
    {
        let from = self.decoded.len();
        self.decoded.extend_from_slice(key.as_bytes())?;
        let to = self.decoded.len();
        let member = Member {
            prefix: prefix_within(&self.decoded, from, to),
            from,
            to,
            start,
            after,
            decoded: true,
        };
        self.preserve(member)
    }

    // The members from an index on, with their keys.
    #[inline(always)]
    fn keys(&self, first: usize) -> Keys<'_>
        ensures text { result.text.now ≡ self.now.text.now }
        ensures decoded { result.decoded.now ≡ self.now.decoded.items }
        ensures members { result.members.now ≡ drop first self.now.entries.items }
    {
        Keys::new(self.text, &self.decoded, members_from(&self.entries, first))
    }

    /// Whether the keys of the members from an index on ascend.
    #[inline(always)]
    pub fn ascend(&self, first: usize) -> bool
        ensures { IsTrue result → KeysAscendFrom self.now first }
    {
        ascend(&self.keys(first))
    }

    /// Puts the bytes of the members from an index on, which end what is written, in the order of their keys. Reports the
    /// member where the least key that comes twice comes the second time. The first `floor` bytes stay. Nothing is done
    /// where much was moved before.
    #[cold]
    #[inline(never)]
    pub fn put_in_order(
        &mut self,
        first: usize,
        out: &mut Vec<u8>,
        site: &Site<'_>,
    ) -> Result<Option<Repeat>, Unsettled>
        requires { WasCopied site.now out.old.items }
        ensures same { AreSame self.old self.new }
        ensures retained { Extends (take site.now.floor out.old.items) out.new.items }
        ensures order { IfOk result (PutsInOrder site.now.commas site.now.floor self.old self.new first
            out.old.items out.new.items) }
    {
        if self.spare.total / MOST_MOVED > self.text.len() {
            return Err(Unsettled::MovedMuch);
        }
        let members = members_from(&self.entries, first);
        let keys = Keys::new(self.text, &self.decoded, members);
        let found = put_in_order(out, &keys, &mut self.spare, site)?;
        Ok(repeat_from(first, found))
    }

    /// Finds a key that comes twice among the members from an index on, and reports the member where the least such key
    /// comes the second time.
    #[inline(always)]
    pub fn find_repeat(&mut self, first: usize) -> Result<Option<Repeat>, AllocError>
        ensures same { AreSame self.old self.new }
        ensures repeat { IfOk result (λ found. (commas : Bool) → (bytes : Found → List ℕ) → (start : ℕ)
            → (fs : List Found) → EndIn commas bytes self.old first start fs → FindsRepeat self.new fs found) }
    {
        if self.ascend(first) {
            return Ok(None);
        }
        self.search_repeat(first)
    }

    // Finds it where the keys don't ascend.
    #[cold]
    #[inline(never)]
    fn search_repeat(&mut self, first: usize) -> Result<Option<Repeat>, AllocError>
        ensures same { AreSame self.old self.new }
        ensures repeat { IfOk result (λ found. (commas : Bool) → (bytes : Found → List ℕ) → (start : ℕ)
            → (fs : List Found) → EndIn commas bytes self.old first start fs → FindsRepeat self.new fs found) }
    {
        let members = members_from(&self.entries, first);
        if few_differ(members) {
            return Ok(None);
        }
        let keys = Keys::new(self.text, &self.decoded, members);
        let found = search_repeat(&keys, &mut self.spare)?;
        Ok(repeat_from(first, found))
    }

    /// The key that comes twice, and the index after it in the text where it does so.
    pub fn repeated(&self, repeat: &Repeat) -> Option<(&str, usize)>
        ensures key { IfSome result (λ reported. reported.0.now ≡ (spot_at_repeat self.now repeat.now).key) }
        ensures offset { IfSome result (λ reported. reported.1 ≡ (spot_at_repeat self.now repeat.now).offset) }
        ensures some { IsUtf8 (spot_at_repeat self.now repeat.now).key → IsTrue (is_some result) }
    {
        let keys = self.keys(repeat.first);
        let offset = match keys.members.get(repeat.index) {
            Some(member) => member.after,
            None => 0,
        };
        match std::str::from_utf8(key_at(&keys, repeat.index)) {
            Ok(key) => Some((key, offset)),
            Err(_) => None,
        }
    }

    /// The members from an index on are held no longer.
    #[inline(always)]
    pub fn close(&mut self, first: usize)
        ensures { Closes first self.old self.new }
    {
        self.entries.truncate(first);
    }
}
