//! The two passes over the instructions: a character passes through them, and then the empty word.
ghost use Rattle.std.specs.Prelude.{◌≡◌, ℕ, ◌+◌, ◌-◌, ◌<◌, ◌≤◌, Bool, false, ◌||◌, ◌&&◌, [], length, take, drop, replicate, slice_index_or};
ghost use Rattle.pattern_match.specs.Gaps.{HasGaps, IsQuiet, gaps as gaps_from};
ghost use Rattle.pattern_match.specs.Marks.{IsListed, IsDone, Skips, Starts, first_place_or, first_rest, second_rest, is_open as is_open_of};
ghost use Rattle.pattern_match.specs.Marking.{first_pass, second_pass, first_mark, first_live, first_frames, second_mark, second_live, second_frames, end_of_group};
ghost use Rattle.pattern_match.specs.Token.{admits};

use crate::flow::Flow;
use crate::gaps::gap_at;
use crate::instruction::Instruction;
use crate::marks::Marks;
use crate::token::{Token, does_admit};

/// One instruction of the first pass: its new mark.
fn first_step(
    instruction: Instruction,
    mark: bool,
    tokens: &[Token],
    c: char,
    flow: &mut Flow,
) -> bool
    requires { length flow.old.frames < flow.old.capacity }
    ensures mark { result ≡ first_mark (λ at. admits tokens.now at c) instruction mark flow.old.live flow.old.frames }
    ensures live { flow.new.live ≡ first_live (λ at. admits tokens.now at c) instruction mark flow.old.live flow.old.frames }
    ensures frames { flow.new.frames ≡ first_frames instruction flow.old.live flow.old.frames }
    ensures capacity { flow.old.capacity ≤ flow.new.capacity }
    ensures depth { length flow.new.frames ≤ length flow.old.frames + 1 }
{
    match instruction {
        Instruction::Take { at, optional, .. } => {
            let hit = mark && does_admit(tokens, at, c);
            let live = flow.is_live();
            flow.set_live(hit || (optional && live));
            hit
        }
        Instruction::Open { optional, .. } => {
            flow.open(optional, false);
            mark
        }
        Instruction::Bar => {
            flow.bar();
            mark
        }
        Instruction::Close => flow.close(),
    }
}

/// One instruction of the second pass, with what the first left at it and where its group ends: its new mark.
fn second_step(instruction: Instruction, hit: bool, end: bool, flow: &mut Flow) -> bool
    requires { length flow.old.frames < flow.old.capacity }
    ensures mark { result ≡ second_mark instruction hit flow.old.live flow.old.frames }
    ensures live { flow.new.live ≡ second_live instruction hit end flow.old.live flow.old.frames }
    ensures frames { flow.new.frames ≡ second_frames instruction end flow.old.live flow.old.frames }
    ensures capacity { flow.old.capacity ≤ flow.new.capacity }
    ensures depth { length flow.new.frames ≤ length flow.old.frames + 1 }
{
    match instruction {
        Instruction::Take {
            optional,
            repeated,
            ..
        } => {
            let live = flow.is_live();
            flow.set_live(hit || (optional && live));
            live || (repeated && hit)
        }
        Instruction::Open {
            optional,
            repeated,
            ..
        } => {
            flow.open(optional, repeated && end);
            hit
        }
        Instruction::Bar => {
            flow.bar();
            hit
        }
        Instruction::Close => {
            flow.close();
            false
        }
    }
}

/// Whether the instruction begins a group.
fn is_open(instruction: Instruction) -> bool
    ensures { result ≡ is_open_of instruction }
{
    match instruction {
        Instruction::Open { .. } => true,
        _ => false,
    }
}

/// How many instructions behind this one its group ends.
fn group_end(instruction: Instruction) -> usize
    ensures { result ≡ end_of_group instruction }
{
    match instruction {
        Instruction::Open { length, .. } => length,
        _ => 0,
    }
}

/// What the first pass left where a group ends that the instruction of this number begins.
fn hit_at_end(instruction: Instruction, hits: &[bool], i: usize) -> bool
    requires { i < length hits.now }
    ensures { result ≡ slice_index_or (drop (i + 1) hits.now) (end_of_group instruction) false }
{
    let later = &hits[i + 1..];
    let end = group_end(instruction);
    if end < later.len() { later[end] } else { false }
}

/// Begins a pass.
fn begin_pass(code: &[Instruction], marks: &mut Marks)
    requires { IsDone code.now marks.old }
    ensures listed { IsListed code.now marks.new }
    ensures cells { marks.new.cells ≡ marks.old.cells }
    ensures at { marks.new.at ≡ 0 }
{
    marks.begin();
}

/// Goes on to the next mark that may be set, or to the end of the code.
fn skip_unset(code: &[Instruction], marks: &mut Marks)
    requires { IsListed code.now marks.old }
    ensures skips { Skips code.now marks.old marks.new }
    ensures walk { marks.new ≡ record marks.old { at = first_place_or marks.old.ahead (length code.now) } }
{
    marks.jump(marks.next(code.len()));
}

/// Lists the next instruction no longer, if it begins a group in which nothing is listed.
fn forget_group(code: &[Instruction], marks: &mut Marks)
    requires { IsListed code.now marks.old }
    ensures { Skips code.now marks.old marks.new }
{
    let i = marks.at();
    if i >= code.len() || !is_open(code[i]) || marks.is_set(i) {
        return;
    }
    let next = marks.second(code.len());
    if next > i && group_end(code[i]) < next - i - 1 {
        marks.forget();
    }
}

/// Goes on to the next mark that may be set, or to the end of the branch.
fn skip_branch(code: &[Instruction], gaps: &[usize], marks: &mut Marks)
    requires listed { IsListed code.now marks.old }
    requires gaps { gaps.now ≡ gaps_from code.now }
    requires quiet { HasGaps code.now }
    ensures skips { Skips code.now marks.old marks.new }
    ensures quiet { IsQuiet (marks.new.at - marks.old.at) (drop marks.old.at code.now) }
{
    let i = marks.at();
    if i >= code.len() {
        return;
    }
    let end = i + gap_at(gaps, i);
    marks.jump(marks.next(code.len()).min(end));
}

/// Goes on in the first pass, where no word may: to the next mark that may be set, or, as long as a group is begun, to
/// the end of a branch.
fn skip_first(code: &[Instruction], gaps: &[usize], marks: &mut Marks, flow: &Flow)
    requires listed { IsListed code.now marks.old }
    requires gaps { gaps.now ≡ gaps_from code.now }
    requires quiet { HasGaps code.now }
    ensures listed { IsListed code.now marks.new }
    ensures further { marks.old.at ≤ marks.new.at }
    ensures rest { (admits : ℕ → Bool) → first_rest admits code.now marks.new flow.now.live flow.now.frames ≡ first_rest admits code.now marks.old flow.now.live flow.now.frames }
{
    if flow.is_live() {
        return;
    }
    if flow.is_idle() {
        skip_unset(code, marks);
        forget_group(code, marks);
        skip_unset(code, marks);
        return;
    }
    skip_branch(code, gaps, marks);
}

/// Goes on in the second pass, where no word may: to the next mark that may be set, or, as long as a group is begun, to
/// the end of a branch.
fn skip_second(code: &[Instruction], gaps: &[usize], marks: &mut Marks, flow: &Flow)
    requires listed { IsListed code.now marks.old }
    requires gaps { gaps.now ≡ gaps_from code.now }
    requires quiet { HasGaps code.now }
    ensures listed { IsListed code.now marks.new }
    ensures further { marks.old.at ≤ marks.new.at }
    ensures rest { second_rest code.now marks.new flow.now.live flow.now.frames ≡ second_rest code.now marks.old flow.now.live flow.now.frames }
{
    if flow.is_live() {
        return;
    }
    if flow.is_idle() {
        skip_unset(code, marks);
        return;
    }
    skip_branch(code, gaps, marks);
}

/// Some instructions of the first pass: those that it may skip, and one more.
fn advance_first(
    code: &[Instruction],
    gaps: &[usize],
    tokens: &[Token],
    c: char,
    marks: &mut Marks,
    flow: &mut Flow,
)
    requires listed { IsListed code.now marks.old }
    requires gaps { gaps.now ≡ gaps_from code.now }
    requires quiet { HasGaps code.now }
    requires inside { marks.old.at < length code.now }
    requires depth { length flow.old.frames ≤ marks.old.at }
    requires capacity { length code.now ≤ flow.old.capacity }
    ensures listed { IsListed code.now marks.new }
    ensures further { marks.old.at < marks.new.at }
    ensures rest { first_rest (λ at. admits tokens.now at c) code.now marks.new flow.new.live flow.new.frames ≡ first_rest (λ at. admits tokens.now at c) code.now marks.old flow.old.live flow.old.frames }
    ensures depth { length flow.new.frames ≤ marks.new.at }
    ensures capacity { flow.old.capacity ≤ flow.new.capacity }
{
    skip_first(code, gaps, marks, flow);
    let i = marks.at();
    if i >= code.len() {
        return;
    }
    let mark = first_step(code[i], marks.is_set(i), tokens, c, flow);
    marks.put(mark, is_open(code[i]));
}

/// The first pass: which marked atoms take the character, and which groups it may end.
pub fn pass_first(
    code: &[Instruction],
    gaps: &[usize],
    tokens: &[Token],
    c: char,
    marks: &mut Marks,
    flow: &mut Flow,
)
    requires done { IsDone code.now marks.old }
    requires gaps { gaps.now ≡ gaps_from code.now }
    requires quiet { HasGaps code.now }
    requires capacity { length code.now ≤ flow.old.capacity }
    requires frames { flow.old.frames ≡ [] }
    ensures done { IsDone code.now marks.new }
    ensures marks { marks.new.cells ≡ first_pass (λ at. admits tokens.now at c) code.now marks.old.cells flow.old.live [] }
    ensures capacity { flow.old.capacity ≤ flow.new.capacity }
{
    begin_pass(code, marks);
    while marks.at() < code.len() {
        advance_first(code, gaps, tokens, c, marks, flow);
    }
}

/// Some instructions of the second pass: those that it may skip, and one more.
fn advance_second(code: &[Instruction], gaps: &[usize], marks: &mut Marks, flow: &mut Flow)
    requires listed { IsListed code.now marks.old }
    requires gaps { gaps.now ≡ gaps_from code.now }
    requires quiet { HasGaps code.now }
    requires inside { marks.old.at < length code.now }
    requires depth { length flow.old.frames ≤ marks.old.at }
    requires capacity { length code.now ≤ flow.old.capacity }
    ensures listed { IsListed code.now marks.new }
    ensures further { marks.old.at < marks.new.at }
    ensures rest { second_rest code.now marks.new flow.new.live flow.new.frames ≡ second_rest code.now marks.old flow.old.live flow.old.frames }
    ensures depth { length flow.new.frames ≤ marks.new.at }
    ensures capacity { flow.old.capacity ≤ flow.new.capacity }
{
    skip_second(code, gaps, marks, flow);
    let i = marks.at();
    if i >= code.len() {
        return;
    }
    let end = hit_at_end(code[i], marks.cells(), i);
    let mark = second_step(code[i], marks.is_set(i), end, flow);
    marks.put(mark, is_open(code[i]));
}

/// The second pass: which atoms may come next, and at the end whether the word may end.
pub fn pass_second(code: &[Instruction], gaps: &[usize], marks: &mut Marks, flow: &mut Flow)
    requires done { IsDone code.now marks.old }
    requires gaps { gaps.now ≡ gaps_from code.now }
    requires quiet { HasGaps code.now }
    requires capacity { length code.now ≤ flow.old.capacity }
    requires frames { flow.old.frames ≡ [] }
    ensures done { IsDone code.now marks.new }
    ensures marks { marks.new.cells ≡ second_pass code.now marks.old.cells flow.old.live [] }
    ensures capacity { flow.old.capacity ≤ flow.new.capacity }
{
    begin_pass(code, marks);
    while marks.at() < code.len() {
        advance_second(code, gaps, marks, flow);
    }
    marks.put_last(flow.is_live());
}

/// Some marks are taken away: those up to the next that may be set, and one more.
fn advance_clear(code: &[Instruction], marks: &mut Marks)
    requires listed { IsListed code.now marks.old }
    requires inside { marks.old.at < length code.now }
    requires clear { take marks.old.at marks.old.cells ≡ replicate marks.old.at false }
    ensures listed { IsListed code.now marks.new }
    ensures further { marks.old.at < marks.new.at }
    ensures clear { take marks.new.at marks.new.cells ≡ replicate marks.new.at false }
{
    skip_unset(code, marks);
    let i = marks.at();
    if i < code.len() {
        marks.put(false, is_open(code[i]));
    }
}

/// Takes all marks away.
fn pass_clear(code: &[Instruction], marks: &mut Marks)
    requires { IsDone code.now marks.old }
    ensures done { IsDone code.now marks.new }
    ensures marks { marks.new.cells ≡ replicate (length code.now + 1) false }
{
    begin_pass(code, marks);
    while marks.at() < code.len() {
        advance_clear(code, marks);
    }
    marks.put_last(false);
}

/// Sets the marks as these are.
pub fn pass_load(code: &[Instruction], row: &[bool], marks: &mut Marks)
    requires done { IsDone code.now marks.old }
    requires row { length row.now ≡ length code.now + 1 }
    ensures done { IsDone code.now marks.new }
    ensures marks { marks.new.cells ≡ row.now }
{
    begin_pass(code, marks);
    for i in 0..code.len() {
        marks.put(row[i], is_open(code[i]));
    }
    marks.put_last(row[code.len()]);
}

/// Some marks are set as the first are: those up to the next that may be set, and one more.
fn advance_start(code: &[Instruction], first: &Marks, marks: &mut Marks)
    requires starts { Starts code.now first.now marks.old }
    requires inside { marks.old.at < length code.now }
    ensures starts { Starts code.now first.now marks.new }
    ensures further { marks.old.at < marks.new.at }
{
    skip_unset(code, marks);
    let i = marks.at();
    if i < code.len() {
        marks.put(first.is_set(i), is_open(code[i]));
    }
}

/// Sets the marks as the first are, by the places that are listed of these.
pub fn pass_start(code: &[Instruction], first: &Marks, marks: &mut Marks)
    requires first { IsDone code.now first.now }
    requires done { IsDone code.now marks.old }
    ensures done { IsDone code.now marks.new }
    ensures marks { marks.new.cells ≡ first.now.cells }
{
    pass_clear(code, marks);
    begin_pass(code, marks);
    marks.relist(first);
    while marks.at() < code.len() {
        advance_start(code, first, marks);
    }
    marks.put_last(first.is_set(code.len()));
}

/// Some marks stay as they are: those up to the next that may be set, or a group with one, and one more.
fn advance_tidy(code: &[Instruction], marks: &mut Marks)
    requires listed { IsListed code.now marks.old }
    requires inside { marks.old.at < length code.now }
    ensures listed { IsListed code.now marks.new }
    ensures further { marks.old.at < marks.new.at }
    ensures cells { marks.new.cells ≡ marks.old.cells }
{
    skip_unset(code, marks);
    forget_group(code, marks);
    skip_unset(code, marks);
    let i = marks.at();
    if i < code.len() {
        marks.put(marks.is_set(i), is_open(code[i]));
    }
}

/// Lists groups no longer in which nothing is listed.
pub fn pass_tidy(code: &[Instruction], marks: &mut Marks)
    requires { IsDone code.now marks.old }
    ensures done { IsDone code.now marks.new }
    ensures cells { marks.new.cells ≡ marks.old.cells }
{
    begin_pass(code, marks);
    while marks.at() < code.len() {
        advance_tidy(code, marks);
    }
    marks.put_last(marks.is_set(code.len()));
}
