//! Code with its loops, where each Begin has its End, and the walk over it that follows the height of the stack.

ghost use Rattle.std.specs.Prelude.{◌↔◌, Some, IsTrue, IsSome, IfSome, ◌≡◌, ◌+◌, ◌<◌, ◌≤◌, ◌^◌, length, map, slice_get, IfOk, slice_set, slice_index_or, None};
ghost use Rattle.sift_code.specs.Enclosing.{enclosing};
ghost use Rattle.sift_code.specs.Sources.{source_of};
ghost use Rattle.sift_code.specs.Nest.{AreStarts, ArePasts, start_at, past_at};
ghost use Rattle.sift_code.specs.Refusal.{IsBadJump, IsUnderflow, IsTooDeep};
ghost use Rattle.sift_code.specs.Walk.{IsAt, behind, joined};

use crate::instr::{Instr, Limits, Source};
use crate::refusal::Bad;
use sift_base::NoMemory;
use std::alloc::Global;
use std::marker::Model;

// ---- loops

/// Code, with where its instructions read, and where its loops begin and end. A clause sees the code.
#[derive(Drop)]
pub(crate) struct Nest {
    code: Vec<Instr>,
    sources: Vec<Source>,
    starts: Vec<Option<u32>>,
    pasts: Vec<Option<u32>>,
}

impl Model for Nest {
    ghost use Rattle.std.specs.Prelude.{List};
    ghost use Rattle.sift_code.specs.declared.instr.Instr.{Instr};
    ghost use Rattle.sift_code.specs.Nest.{IsNest};

    ghost Value = { List Instr };

    ghost view = { λ n. n.code.items };

    ghost invariant = { λ n. IsNest n.code.items n.sources.items n.starts.items n.pasts.items };
}

impl Nest {
    /// Finds where the code reads, and its loops.
    pub fn of(alloc: Global, code: Vec<Instr>) -> Result<Nest, NoMemory>
        requires { length code.items < 2 ^ 32 }
        ensures { IfOk result (λ nest. nest ≡ code.items) }
    {
        let sources = sources_of(alloc, &code)?;
        let pasts = pasts_of(alloc, &code)?;
        let starts = starts_of(alloc, &code, &pasts)?;
        Ok(Nest {
            code,
            sources,
            starts,
            pasts,
        })
    }

    /// How many instructions there are.
    pub fn len(&self) -> usize
        ensures { result ≡ length self.now }
    {
        self.code.len()
    }

    /// The instructions.
    pub fn code(&self) -> &[Instr]
        ensures same { result.now ≡ self.now }
        ensures short { length self.now < 2 ^ 32 }
    {
        &self.code
    }

    /// Where each instruction reads.
    pub fn sources(&self) -> &[Source]
        ensures { result.now ≡ map source_of self.now }
    {
        &self.sources
    }

    /// The instruction at a place, and None at the code's length.
    pub fn instr(&self, at: usize) -> Option<Instr>
        ensures read { result ≡ slice_get self.now at }
        ensures inside { IsSome result → at < length self.now }
    {
        self.code.get(at).copied()
    }

    /// The place after the Begin of the innermost loop that encloses a place.
    pub fn start(&self, at: usize) -> Option<u32>
        requires { at ≤ length self.now }
        ensures found { result ≡ start_at self.now at }
        ensures before { IfSome result (λ start. start ≤ at) }
    {
        self.starts[at]
    }

    /// Whether the same loops enclose two places.
    pub fn same_loops(&self, a: usize, b: usize) -> bool
        requires a_inside { a ≤ length self.now }
        requires b_inside { b ≤ length self.now }
        ensures { IsTrue result ↔ (enclosing self.now a ≡ enclosing self.now b) }
    {
        self.start(a) == self.start(b)
    }

    /// The place after the End that closes the loop open before this place.
    pub fn past(&self, at: usize) -> Option<u32>
        requires { at ≤ length self.now }
        ensures { result ≡ past_at self.now at }
    {
        self.pasts[at]
    }
}

/// Where each instruction reads.
fn sources_of(alloc: Global, code: &[Instr]) -> Result<Vec<Source>, NoMemory>
    ensures { IfOk result (λ sources. sources.items ≡ map source_of code.now) }
{
    let mut sources = Vec::with_capacity(alloc, code.len())?;
    for instr in code {
        sources.push_reserved(Source::of(instr));
    }
    Ok(sources)
}

/// For each place, the place after the End that closes the loop open before it.
fn pasts_of(alloc: Global, code: &[Instr]) -> Result<Vec<Option<u32>>, NoMemory>
    requires { length code.now < 2 ^ 32 }
    ensures { IfOk result (λ pasts. ArePasts code.now pasts.items) }
{
    let mut pasts = vec![in alloc; None; code.len() + 1]?;
    for at in (0..code.len()).rev() {
        let instr = code[at];
        let entry = match instr {
            Instr::End => Some(at as u32 + 1),
            Instr::Begin(_) => match pasts[at + 1] {
                Some(past) => pasts[past as usize],
                None => None,
            },
            _ => pasts[at + 1],
        };
        pasts[at] = entry;
    }
    Ok(pasts)
}

/// For each place, the place after the Begin of the innermost loop that encloses it.
fn starts_of(
    alloc: Global,
    code: &[Instr],
    pasts: &[Option<u32>],
) -> Result<Vec<Option<u32>>, NoMemory>
    requires short { length code.now < 2 ^ 32 }
    requires tell { ArePasts code.now pasts.now }
    ensures { IfOk result (λ starts. AreStarts code.now starts.items) }
{
    let mut starts = vec![in alloc; None; code.len() + 1]?;
    for at in 0..code.len() {
        let instr = code[at];
        let entry = match instr {
            Instr::Begin(_) => match pasts[at + 1] {
                Some(_) => Some(at as u32 + 1),
                None => starts[at],
            },
            Instr::End => match starts[at] {
                Some(start) => starts[start as usize - 1],
                None => None,
            },
            _ => starts[at],
        };
        starts[at + 1] = entry;
    }
    Ok(starts)
}

// ---- the walk

/// The heights that jumps brought to a place.
#[derive(Clone, Copy)]
pub(crate) struct Brought {
    /// The latest of them.
    pub height: u16,
    /// Whether they are all the same.
    pub same: bool,
}

/// What is known on arrival at a place, heights followed from place 0 on.
#[derive(Drop)]
pub(crate) struct Walk {
    /// The height at each place so far.
    pub heights: Vec<u16>,
    /// What jumps brought to each place.
    pub brought: Vec<Option<Brought>>,
    /// How many loops are open.
    pub depth: usize,
    /// The greatest height after an instruction so far.
    pub stack: u16,
}

impl Walk {
    /// The walk at place 0.
    pub fn start(alloc: Global, nest: &Nest) -> Result<Walk, NoMemory>
        requires { length nest.now < 2 ^ 32 }
        ensures { IfOk result (λ walk. IsAt nest.now 0 walk) }
    {
        let places = nest.len() + 1;
        Ok(Walk {
            heights: vec![in alloc; 0; places]?,
            brought: vec![in alloc; None; places]?,
            depth: 0,
            stack: 0,
        })
    }

    /// Follows the heights over a place at which nothing offends.
    pub fn pass(&mut self, nest: &Nest, at: usize, instr: Instr)
        requires short { length nest.now < 2 ^ 32 }
        requires read { slice_get nest.now at ≡ Some instr }
        requires jumps { ¬ IsBadJump nest.now at }
        requires filled { ¬ IsUnderflow nest.now at }
        requires shallow { ¬ IsTooDeep nest.now at }
        requires here { IsAt nest.now at self.old }
        ensures { IsAt nest.now (at + 1) self.new }
    {
        let left = self.heights[at] - instr.pops();
        let after = left + instr.pushes();
        self.heights[at + 1] = next_height(&instr, self.brought[at + 1], after);
        self.stack = self.stack.max(after);
        match instr {
            Instr::JumpZ(to) => bring(&mut self.brought, to as usize, after),
            Instr::Jump(to) => bring(&mut self.brought, to as usize, after),
            Instr::Begin(_) => self.depth += 1,
            Instr::End => self.depth -= 1,
            _ => {}
        }
    }
}

/// The height behind an instruction: behind a Jump it is the one that was brought there, if any.
fn next_height(instr: &Instr, brought: Option<Brought>, after: u16) -> u16
    ensures { result ≡ behind instr.now brought after }
{
    match (instr, brought) {
        (Instr::Jump(_), Some(brought)) => brought.height,
        _ => after,
    }
}

/// Brings a height to a place.
fn bring(table: &mut [Option<Brought>], to: usize, height: u16)
    requires { to < length table.old }
    ensures { table.new ≡ slice_set table.old to
        (Some (joined height (slice_index_or table.old to None))) }
{
    let same = match table[to] {
        Some(brought) => brought.same && brought.height == height,
        None => true,
    };
    table[to] = Some(Brought { height, same });
}
