//! Rules 68 and 69: the chains of a hash table (gABI chapter 5, Hash Table).
//!
//! Chains may share their tails, so that walking each of them to its end could take the number of buckets times the number of
//! symbols. The walks here stop where the chain's length is known, and go back over the symbols that are new: each
//! symbol is met once. Whether a symbol is on a chain is asked by jumps down it, of which a few lead to any place.
//!
//! What is known is in three lists of a word for each symbol, and a fourth has the symbols of a walk. The caller lends them.
ghost use Rattle.std.specs.Prelude.{◌≡◌, ◌≢◌, ◌↔◌, ◌<◌, ◌≤◌, ◌+◌, ◌*◌, ℕ, None, IfNone, IfSome, IsTrue, length, get_or, take};
ghost use Rattle.std.specs.Prelude.{slice_set};
ghost use Rattle.elf_extent.specs.Extent.{IsLowest};
ghost use Rattle.elf_table_symbols.specs.Sections.{Below};
ghost use Rattle.elf_table_hash.specs.ChainDepths.{AreDepths, AreKnownChains, IsDepthKnown, Leads};
ghost use Rattle.elf_table_hash.specs.HashTable.{Ends, IsOn, IsPath, AreHashWords, bucket, chain, nbucket, nchain};

use crate::hash_words::HashWords;
use std::marker::Model;

// What is known of a symbol's chain.
#[derive(Clone, Copy)]
struct Known {
    // The symbol's chain word.
    next: u32,
    // The length of the chain, 0 if it isn't known.
    depth: u32,
    // A symbol further down, or itself.
    jump: u32,
    // The word that it was first met from.
    start: u32,
}

/// The chains of a hash table whose words are those of symbols, as far as they are known.
#[derive(Drop)]
pub(crate) struct KnownChains<'w, 'a> {
    words: &'w HashWords<'a>,
    // For each symbol the length of its chain, 0 if that isn't known.
    depth: &'w [u32],
    // A symbol that its chain leads to, or itself.
    jump: &'w [u32],
    // The word that it was first met from.
    starts: &'w [u32],
}

impl<'w, 'a> Model for KnownChains<'w, 'a> {
    ghost use Rattle.elf_table_hash.specs.ChainDepths.{ChainsValue};

    ghost Value = { ChainsValue };

    ghost use Rattle.elf_table_hash.specs.ChainDepths.{AreKnownChains, chains_value};

    ghost view = { chains_value };

    ghost invariant = { λ k. AreKnownChains k.words.now k.depth.now k.jump.now k.starts.now };
}

impl<'w, 'a> KnownChains<'w, 'a> {
    /// The chains of these words, by what the lists say of them.
    pub(crate) fn new(
        words: &'w HashWords<'a>,
        depth: &'w [u32],
        jump: &'w [u32],
        starts: &'w [u32],
    ) -> KnownChains<'w, 'a>
        requires { AreKnownChains words.now depth.now jump.now starts.now }
        ensures words { result.words ≡ words.entry.now }
        ensures depth { result.depth ≡ depth.entry.now }
    {
        KnownChains {
            words,
            depth,
            jump,
            starts,
        }
    }

    // Down the chain of `start` to the first symbol whose chain is known, or to its end; the symbols before it are put into the first
    // places of `path`, and their number is returned with it. None if the chain does not end.
    fn climb(&self, start: u32, path: &mut [u32]) -> Option<(u32, usize)>
        requires start { start < nchain self.now.words }
        requires room { nchain self.now.words ≤ length path.old }
        ensures path { IfSome result (λ found. IsPath (chain self.now.words) start (take found.1 path.new) found.0) }
        ensures few { IfSome result (λ found. found.1 ≤ length path.new) }
        ensures known { IfSome result (λ found. IsDepthKnown self.now.depth found.0) }
        ensures endless { IfNone result (¬ Ends (chain self.now.words) start) }
        ensures long { length path.new ≡ length path.old }
    {
        self.prove_known();
        let symbols = self.words.nchain() as usize;
        let mut s = start;
        let mut count = 0;
        'steps: while s != 0 && self.at(s).depth == 0 {
            if count >= symbols {
                return None;
            }
            path[count] = s;
            count += 1;
            s = self.at(s).next;
        }
        Some((s, count))
    }

    // The jump of a symbol whose chain word is `s`: two jumps of one length from `s` on become one, else it leads to `s` alone.
    fn far_of(&self, s: u32) -> u32
        requires { s < nchain self.now.words }
        ensures leads { Leads (chain self.now.words) s result }
        ensures inside { result < nchain self.now.words }
    {
        let here = self.at(s);
        let far = self.at(here.jump);
        let farther = self.at(far.jump);
        if here.depth as u64 + farther.depth as u64 == 2 * far.depth as u64 {
            far.jump
        } else {
            s
        }
    }

    /// Whether symbol `s` is on the chain of `start`, which is known.
    pub(crate) fn is_on(&self, start: u32, s: u32) -> bool
        requires start { start < nchain self.now.words }
        requires known { IsDepthKnown self.now.depth start }
        requires inside { s < nchain self.now.words }
        ensures { IsTrue result ↔ IsOn (chain self.now.words) start s }
    {
        self.prove_known();
        let symbol = self.at(s);
        if symbol.depth == 0 {
            return false;
        }
        // Most symbols were first met from the bucket of their name.
        if symbol.start == start {
            return true;
        }
        let mut here = start;
        'steps: while self.at(here).depth > symbol.depth {
            here = self.leap(here, symbol.depth);
        }
        here == s
    }

    // From `s` down its chain, as far as its jump leads or else to the next symbol, to one whose chain is still this long.
    fn leap(&self, s: u32, deep: u32) -> u32
        requires inside { s < nchain self.now.words }
        requires above { deep < get_or self.now.depth s 0 }
        ensures leads { Leads (chain self.now.words) s result }
        ensures nearer { get_or self.now.depth result 0 < get_or self.now.depth s 0 }
        ensures above { deep ≤ get_or self.now.depth result 0 }
        ensures inside { result < nchain self.now.words }
    {
        self.prove_known();
        let here = self.at(s);
        let there = self.at(here.jump).depth;
        if deep <= there && there < here.depth {
            return here.jump;
        }
        here.next
    }

    // What is known of the chain of symbol `s`. It is inlined, so that no more of it is read than the caller uses.
    #[inline(always)]
    fn at(&self, s: u32) -> Known
        requires { s < nchain self.now.words }
        ensures next { result.next ≡ chain self.now.words s }
        ensures inside { result.next < nchain self.now.words }
        ensures depth { result.depth ≡ get_or self.now.depth s 0 }
        ensures short { IsDepthKnown self.now.depth s → result.depth < nchain self.now.words }
        ensures jump { Leads (chain self.now.words) s result.jump }
        ensures there { result.jump < nchain self.now.words }
        ensures start { 0 < result.depth → Leads (chain self.now.words) result.start s }
    {
        let at = s as usize;
        Known {
            next: self.words.chain(s),
            depth: self.depth[at],
            jump: self.jump[at],
            start: self.starts[at],
        }
    }

    // Shows what the words and the depths are. It does nothing.
    fn prove_known(&self)
        ensures linked { AreHashWords self.now.words }
        ensures depths { AreDepths (chain self.now.words) (nchain self.now.words) self.now.depth }
    {
        let _ = &self.depth;
    }
}

/// The lists at the beginning: no chain is known, and each symbol's jump is itself.
pub(crate) fn begin(words: &HashWords<'_>, depth: &mut [u32], jump: &mut [u32], starts: &[u32])
    requires words { AreHashWords words.now }
    requires depth { length depth.old ≡ nchain words.now }
    requires jump { length jump.old ≡ nchain words.now }
    requires starts { length starts.now ≡ nchain words.now }
    ensures { AreKnownChains words.now depth.new jump.new starts.now }
{
    for k in 0..words.nchain() {
        depth[k as usize] = 0;
        jump[k as usize] = k;
    }
    let _ = starts;
}

/// The first bucket whose chain does not end. Where there is none, all chains are known.
pub(crate) fn lowest_endless(
    words: &HashWords<'_>,
    depth: &mut [u32],
    jump: &mut [u32],
    starts: &mut [u32],
    path: &mut [u32],
) -> Option<u32>
    requires words { AreHashWords words.now }
    requires lists { AreKnownChains words.now depth.old jump.old starts.old }
    requires room { nchain words.now ≤ length path.old }
    ensures lowest { IsLowest (Below (nbucket words.now) (λ b. ¬ Ends (chain words.now) (bucket words.now b))) result }
    ensures known { IfNone result ((b : ℕ) → b < nbucket words.now → IsDepthKnown depth.new (bucket words.now b)) }
    ensures lists { AreKnownChains words.now depth.new jump.new starts.new }
    ensures path { length path.new ≡ length path.old }
{
    for b in 0..words.nbucket() {
        let start = words.bucket(b);
        let Some((top, count)) = climb_from(words, depth, jump, starts, start, path) else {
            return Some(b);
        };
        settle(words, depth, jump, starts, &path[..count], start, top);
    }
    None
}

// Down the chain of `start`, as `KnownChains::climb`, by what the lists say.
fn climb_from(
    words: &HashWords<'_>,
    depth: &[u32],
    jump: &[u32],
    starts: &[u32],
    start: u32,
    path: &mut [u32],
) -> Option<(u32, usize)>
    requires lists { AreKnownChains words.now depth.now jump.now starts.now }
    requires start { start < nchain words.now }
    requires room { nchain words.now ≤ length path.old }
    ensures path { IfSome result (λ found. IsPath (chain words.now) start (take found.1 path.new) found.0) }
    ensures few { IfSome result (λ found. found.1 ≤ length path.new) }
    ensures known { IfSome result (λ found. IsDepthKnown depth.now found.0) }
    ensures endless { IfNone result (¬ Ends (chain words.now) start) }
    ensures long { length path.new ≡ length path.old }
{
    KnownChains::new(words, depth, jump, starts).climb(start, path)
}

// Notes the chains of the symbols on the path, which leads from `start` to `top`, whose chain is known.
fn settle(
    words: &HashWords<'_>,
    depth: &mut [u32],
    jump: &mut [u32],
    starts: &mut [u32],
    path: &[u32],
    start: u32,
    top: u32,
)
    requires words { AreHashWords words.now }
    requires lists { AreKnownChains words.now depth.old jump.old starts.old }
    requires start { start < nchain words.now }
    requires path { IsPath (chain words.now) start path.now top }
    requires known { IsDepthKnown depth.old top }
    ensures kept { (s : ℕ) → 0 < get_or depth.old s 0 → 0 < get_or depth.new s 0 }
    ensures start { IsDepthKnown depth.new start }
    ensures lists { AreKnownChains words.now depth.new jump.new starts.new }
{
    let mut s = top;
    let mut left = path.len();
    'steps: while left > 0 {
        left -= 1;
        let above = path[left];
        note(words, depth, jump, starts, above, s, start);
        s = above;
    }
}

// Notes the chain of symbol `above`, which was met from `start`, and whose chain word is `s`, whose chain is known.
fn note(
    words: &HashWords<'_>,
    depth: &mut [u32],
    jump: &mut [u32],
    starts: &mut [u32],
    above: u32,
    s: u32,
    start: u32,
)
    requires lists { AreKnownChains words.now depth.old jump.old starts.old }
    requires some { above ≢ 0 }
    requires start { start < nchain words.now }
    requires next { chain words.now above ≡ s }
    requires known { IsDepthKnown depth.old s }
    requires leads { Leads (chain words.now) start above }
    ensures depth { depth.new ≡ slice_set depth.old above (get_or depth.old s 0 + 1) }
    ensures inside { above < length depth.old }
    ensures lists { AreKnownChains words.now depth.new jump.new starts.new }
{
    let chains = KnownChains::new(words, depth, jump, starts);
    let far = chains.far_of(s);
    // A chain has fewer symbols than there are, and their number is one of 32 bits.
    let _ = words.nchain();
    let deep = chains.at(s).depth + 1;
    depth[above as usize] = deep;
    jump[above as usize] = far;
    starts[above as usize] = start;
}
