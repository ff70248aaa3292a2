// The run: one turn after another until the finish test ends it, the budget is spent or the pool is full.
ghost use Rattle.std.specs.Prelude.{◌≡◌, List, [], ◌⊎◌, ◌||◌, ℕ, ◌≤◌, eqb, length, T};
ghost use Rattle.std.specs.Result.{IsOkAnd};
ghost use Rattle.sizes.specs.Sizes.{most_stops};
ghost use Rattle.search.specs.Problem.{State, start};
ghost use Rattle.orders.specs.Orders.{Node, Order};
ghost use Rattle.stops.specs.Code.{Priced};
ghost use Rattle.records.specs.Code.{records};
ghost use Rattle.selection.specs.Code.{Chosen};
ghost use Rattle.answer.specs.Call.{call_of};
ghost use Rattle.answer.specs.Checks.{cause};
ghost use Rattle.answer.specs.Answer.{given};
ghost use Rattle.pairs.specs.Code.{OfStops};
ghost use Rattle.children.specs.Code.{setting_by, Rows, problem_of};
ghost use Rattle.step.specs.Code.{Shown};
ghost use Rattle.lanes.specs.Sizes.{blocks, index_words};
ghost use Rattle.planner.specs.Code.{Running, Turned, Took, links, layout_of, Roomy, rows_by, Begins, Ran, Ended, records_of};

use crate::report::{finished, full, stopped};
use answer::refusal::Refusal;
use answer::{Job, Report};
use chains::join::hold;
use children::best::started;
use children::family::root;
use children::rules::on;
use children::setting::Setting;
use lanes::constants::{BLOCKS, FIRST_SHIFT, INDEX_WORDS, MOST_LINKED};
use lanes::layout::{Layout, active_lane};
use lanes::sized_at;
use pairs::precedence_of;
use pool::rank::reranked;
use pool::settle::settle;
use selection::{choose, floor};
use sizes::{ORDER_PLACES, PLACES, RECORD_WORDS};
use step::{Run, step};
use stops::node_record::Record;
use stops::table::rows;

// The selection that needs no minima: the latest node first.
const LIFO: u32 = 3;

// Words for the children of one node, a record for each stop.
const FAMILY_WORDS: usize = ORDER_PLACES * RECORD_WORDS;

// What comes next of a state.
#[derive(Clone, Copy)]
pub enum Turn {
    Finish,
    Stop,
    Full,
    Go(Run),
}

// The finish test, on the chosen node: it is complete, a node of all n stops (request A.8).
fn finishes(n: u32, b: Record) -> bool
    ensures { result ≡ eqb b.size n }
{
    b.size == n
}

// The turn of the node at i, which the selection picked: the finish test, the budget, the step. `kids` has the slots for its children.
fn turn_at(
    setting: Setting,
    t: [[u32; PLACES]; PLACES],
    w: &mut [u32],
    i: usize,
    r: Run,
    kids: &mut [u32],
    index: &mut [u32],
) -> Turn
    requires { (Chosen setting.n (records w.old) r.layout.used setting.selection i × ((first : List ℕ) × (s : State Node) × Running setting t first w.old index.old r s)) × (most_stops ≤ length (records kids.old)) }
    ensures { (first : List ℕ) (s : State Node) → Running setting t first w.old index.old r s → Turned setting t w.old w.new index.new s result }
{
    let b = sized_at(w, i);
    if finishes(setting.n, b) {
        return Turn::Finish;
    }
    if setting.budget <= r.branched {
        return Turn::Stop;
    }
    match step(setting, t, w, i, r, kids, index) {
        Some(next) => Turn::Go(next),
        None => Turn::Full,
    }
}

// One turn: the selection, then the turn of the node that it picks. The refusal of a selection that there is not is handed on.
fn take_turn(
    setting: Setting,
    t: [[u32; PLACES]; PLACES],
    w: &mut [u32],
    r: Run,
    kids: &mut [u32],
    index: &mut [u32],
) -> Result<Turn, Refusal>
    requires { ((first : List ℕ) × (s : State Node) × Running setting t first w.old index.old r s) × (most_stops ≤ length (records kids.old)) }
    ensures { (first : List ℕ) (s : State Node) → Running setting t first w.old index.old r s → Took setting t w.old w.new index.new s result }
{
    match choose(w, r.layout, setting.n, setting.selection, index) {
        Ok(i) => Ok(turn_at(setting, t, w, i, r, kids, index)),
        Err(refusal) => Err(refusal),
    }
}

// Whether the chains of a lane are kept, in a pool of some capacity: a rule looks along them, and its records can be numbered by a word.
fn links(rule: bool, capacity: usize) -> bool
    ensures { result ≡ links rule capacity }
{
    rule && capacity < MOST_LINKED
}

// The layout of a pool that holds nothing yet: what a setting does not need is not kept.
fn layout_of(setting: Setting, capacity: usize) -> Layout
    ensures { result ≡ layout_of setting capacity }
{
    Layout {
        capacity,
        used: 0,
        active: 0,
        far: 0,
        shift: FIRST_SHIFT,
        ranked: setting.selection < LIFO,
        linked: links(on(2, setting.rules) || on(8, setting.rules), capacity),
        far_linked: links(on(4, setting.rules), capacity),
    }
}

// The start: e in the pool, and the starting order as the best known.
fn begun(
    setting: Setting,
    t: [[u32; PLACES]; PLACES],
    start: &[u8],
    w: &mut [u32],
    p: Layout,
    index: &mut [u32],
) -> Run
    requires { (Rows setting t × (((start.now ≡ []) ⊎ Order setting.n start.now) × (1 ≤ length (records w.old)))) × ((p ≡ layout_of setting (length (records w.old))) × Roomy p index.old) }
    ensures { Shown setting w.new index.new result (records_of setting t (Rattle.search.specs.Problem.start (problem_of setting t) (given start.now))) }
{
    let best = started(setting, t, start);
    hold(w, active_lane(p), root(setting, t), index);
    let layout = Layout {
        used: 1,
        active: 1,
        ..p
    };
    reranked(w, layout, index);
    Run {
        layout,
        best,
        branched: 0,
        generated: 1,
        eliminated: 0,
        most: 1,
    }
}

// The turns of a run over the rows of a table, until one of them ends it. The slots for a node's children are made once, and lent to each turn.
fn turns(
    setting: Setting,
    table: &[u32],
    start: &[u8],
    w: &mut [u32],
    p: Layout,
    index: &mut [u32],
) -> Result<Report, Refusal>
    requires { Priced setting.n table.now × (Begins setting (rows_by setting table.now) start.now w.old p × Roomy p index.old) }
    ensures { IsOkAnd result (λ q. Ran setting (rows_by setting table.now) start.now w.old q w.new) }
{
    let t = rows(setting.n as usize, setting.bound, table);
    let mut r = begun(setting, t, start, w, p, index);
    let mut kids = [0u32; FAMILY_WORDS];
    loop {
        let next = take_turn(setting, t, w, r, &mut kids, index)?;
        match next {
            Turn::Go(q) => r = q,
            Turn::Finish => {
                settle(w, r.layout);
                return Ok(finished(setting.n, r));
            }
            Turn::Stop => {
                let least = floor(w, r.layout.used);
                settle(w, r.layout);
                return Ok(stopped(setting.n, least, r));
            }
            Turn::Full => {
                settle(w, r.layout);
                return Ok(full(r));
            }
        }
    }
}

// The turns with an index of some words: a whole one where chains are kept, and one with room for the minima alone where none are.
fn turns_over<const WORDS: usize>(
    setting: Setting,
    table: &[u32],
    start: &[u8],
    w: &mut [u32],
    p: Layout,
) -> Result<Report, Refusal>
    requires { (Priced setting.n table.now × Begins setting (rows_by setting table.now) start.now w.old p) × ((WORDS ≤ index_words) × ((T p.ranked → blocks ≤ WORDS) × (T (p.linked || p.far_linked) → index_words ≤ WORDS))) }
    ensures { IsOkAnd result (λ q. Ran setting (rows_by setting table.now) start.now w.old q w.new) }
{
    let mut index = [0u32; WORDS];
    turns(setting, table, start, w, p, &mut index)
}

// What a run goes by.
fn setting_of(job: Job, pairs: &[u8], budget: u64) -> Setting
    requires { OfStops pairs.now }
    ensures { result ≡ setting_by job pairs.now budget }
{
    Setting {
        n: job.n,
        selection: job.selection,
        rules: job.rules,
        bound: job.bound,
        budget,
        precedence: precedence_of(pairs),
    }
}

// The run of a call that every check let pass.
pub fn search(
    job: Job,
    table: &[u32],
    start: &[u8],
    pairs: &[u8],
    budget: u64,
    w: &mut [u32],
) -> Result<Report, Refusal>
    requires { cause (call_of job table.now start.now pairs.now budget w.old) ≡ 0 }
    ensures { IsOkAnd result (λ q. Ended (call_of job table.now start.now pairs.now budget w.old) q w.new) }
{
    let setting = setting_of(job, pairs, budget);
    let p = layout_of(setting, w.len() / RECORD_WORDS);
    if p.linked || p.far_linked {
        return turns_over::<INDEX_WORDS>(setting, table, start, w, p);
    }
    turns_over::<BLOCKS>(setting, table, start, w, p)
}
