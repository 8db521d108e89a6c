//! The steps of a trace are taken, and their lines given.
//!
//! A line of the trace asks for one step of a party, or for so many of a worker, of which the first that is
//! refused is the last. Each step that is taken or refused has its line, which is told before the next step is
//! taken. A run breaks off where the executor or a line finds no memory, or where the sink fails; then no
//! further step is taken. What was given is a front of the log up to there, and all
//! lines of the steps before are whole.

ghost use Rattle.std.specs.Prelude.{◌≡◌, ◌-◌, ◌^◌, ◌<◌, ◌≤◌, ◌⊎◌, List, ◌∷◌, [], All, length, replicate, sum_by, None, IfOk, IfErr, OnOk, OnErr};
ghost use Rattle.exec_base.specs.declared.limits.TheConstants.{MOST_STEPS};
ghost use Rattle.exec_machine.specs.{declared.state.Code.Code as code, Progress.Plan, Examples.Told};
ghost use Rattle.exec_moves.specs.Plays.{Playing};
ghost use Rattle.exec_core.specs.Lift.{Carries};
ghost use Rattle.exec_text.specs.Grammar.{MeaningFits, count_of, meaning_of, StepFits, StepNames};
ghost use Rattle.exec_run.specs.{Ranges.first_out_of_range, Log.{Gave, IsTheLogOf, told_text}, Script.{begun, words_of_all}, Steps.{BrokeBy, GaveUpTo, StandsAt, TakesLine, BreaksLine, Leads, Breaks}};
ghost use Rattle.exec_machine.specs.declared.step.Step.TheVariants as step;

use crate::asking::Limits;
use crate::script::{Program, Script, Scripts};
use crate::setting_up::config_of;
use crate::trace_error::TraceError;
use crate::writing::{flush_all, tell_line};
use exec_base::io::Output;
use exec_core::executor::Core;
use exec_machine::config::{Configuration, ScriptWord};
use exec_machine::event::{Line, StepResult};
use exec_machine::step::{Action, Step};
use exec_parts::scripted::Scripted;
use exec_text::trace::Trace;
use std::alloc::{AllocError, Global};

/// The body that a step carries: that of the task which a caller spawns.
fn body_of<B: Scripted, S: Scripts<B>>(alloc: Global, scripts: &S, action: Action) -> Option<B>
    ensures { (p : Plan) → S.knows scripts.now p → StepNames (length p.scripts) (step.One action) →
        Carries B.left B.runs B.holds B.spot B.name_of p action result }
{
    match action {
        Action::Spawn { script, .. } => scripts.body(alloc, script),
        _ => None,
    }
}

/// Takes one step of one party, and tells its line.
fn take_line<B: Scripted + Drop, S: Scripts<B>, O: Output>(
    alloc: Global,
    core: &mut Core<B>,
    scripts: &S,
    sink: &mut O,
    quiet: bool,
    action: Action,
) -> Result<Line, TraceError>
    requires stands { (p : Plan) × (x : Playing) × StandsAt B.left B.runs B.holds B.spot
        (S.knows scripts.now) p core.old x × StepNames (length p.scripts) (step.One action) }
    ensures count { O.faults sink.old ≤ O.faults sink.new }
    ensures well { OnOk result (O.faults sink.new ≡ O.faults sink.old) }
    ensures takes { IfOk result (λ line. (p : Plan) (x : Playing) →
        StandsAt B.left B.runs B.holds B.spot (S.knows scripts.now) p core.old x →
        StepNames (length p.scripts) (step.One action) →
        TakesLine B.left B.runs B.holds B.spot (S.knows scripts.now) quiet p x action line core.new (O.given sink.old)
        (O.given sink.new)) }
    ensures why { IfErr result (λ e. BrokeBy e (O.faults sink.old) (O.faults sink.new)) }
    ensures breaks { OnErr result ((p : Plan) (x : Playing) →
        StandsAt B.left B.runs B.holds B.spot (S.knows scripts.now) p core.old x →
        StepNames (length p.scripts) (step.One action) →
        (O.given sink.new ≡ O.given sink.old) ⊎ BreaksLine quiet p x action (O.given sink.old) (O.given sink.new)) }
{
    let line = core.apply(alloc, action, body_of(alloc, scripts, action))?;
    tell_line(alloc, sink, quiet, line)?;
    Ok(line)
}

/// Takes so many steps of the worker, or as many as there are up to the first that is refused.
#[tactic(auto, using(crate::proofs::StepLemmas::works_none))]
fn take_work<B: Scripted + Drop, S: Scripts<B>, O: Output>(
    alloc: Global,
    core: &mut Core<B>,
    scripts: &S,
    sink: &mut O,
    quiet: bool,
    worker: usize,
    count: u64,
) -> Result<(), TraceError>
    requires { (p : Plan) × (x : Playing) × StandsAt B.left B.runs B.holds B.spot (S.knows scripts.now) p core.old x }
    ensures count { O.faults sink.old ≤ O.faults sink.new }
    ensures well { OnOk result (O.faults sink.new ≡ O.faults sink.old) }
    ensures leads { OnOk result ((p : Plan) (x : Playing) → StandsAt B.left B.runs B.holds B.spot
        (S.knows scripts.now) p core.old x →
        Leads B.left B.runs B.holds B.spot (S.knows scripts.now) quiet p x (step.Work worker count ∷ []) core.new
        (O.given sink.old) (O.given sink.new)) }
    ensures why { IfErr result (λ e. BrokeBy e (O.faults sink.old) (O.faults sink.new)) }
    ensures breaks { OnErr result ((p : Plan) (x : Playing) →
        StandsAt B.left B.runs B.holds B.spot (S.knows scripts.now) p core.old x →
        Breaks quiet p x (step.Work worker count ∷ []) (O.given sink.old) (O.given sink.new)) }
{
    for _ in 0..count {
        let line = take_line(alloc, core, scripts, sink, quiet, Action::Work { worker })?;
        match line.said {
            StepResult::Refused => return Ok(()),
            StepResult::Did(_) => {}
        }
    }
    Ok(())
}

/// Takes the steps of one line of the trace.
fn take_step<B: Scripted + Drop, S: Scripts<B>, O: Output>(
    alloc: Global,
    core: &mut Core<B>,
    scripts: &S,
    sink: &mut O,
    quiet: bool,
    step: Step,
) -> Result<(), TraceError>
    requires stands { (p : Plan) × (x : Playing) × StandsAt B.left B.runs B.holds B.spot
        (S.knows scripts.now) p core.old x × StepNames (length p.scripts) step }
    requires fits { StepFits step }
    ensures count { O.faults sink.old ≤ O.faults sink.new }
    ensures well { OnOk result (O.faults sink.new ≡ O.faults sink.old) }
    ensures leads { OnOk result ((p : Plan) (x : Playing) → StandsAt B.left B.runs B.holds B.spot
        (S.knows scripts.now) p core.old x → StepNames (length p.scripts) step →
        Leads B.left B.runs B.holds B.spot (S.knows scripts.now) quiet p x (step ∷ []) core.new (O.given sink.old)
        (O.given sink.new)) }
    ensures why { IfErr result (λ e. BrokeBy e (O.faults sink.old) (O.faults sink.new)) }
    ensures breaks { OnErr result ((p : Plan) (x : Playing) →
        StandsAt B.left B.runs B.holds B.spot (S.knows scripts.now) p core.old x → StepNames (length p.scripts) step →
        Breaks quiet p x (step ∷ []) (O.given sink.old) (O.given sink.new)) }
{
    match step {
        Step::Work { worker, count } => {
            take_work(alloc, core, scripts, sink, quiet, worker, count)
        }
        Step::One { action } => {
            take_line(alloc, core, scripts, sink, quiet, action)?;
            Ok(())
        }
    }
}

/// Takes the steps of all lines, in order.
#[tactic(auto, using(crate::proofs::StepLemmas::leads_none))]
fn take_steps<B: Scripted + Drop, S: Scripts<B>, O: Output>(
    alloc: Global,
    core: &mut Core<B>,
    scripts: &S,
    sink: &mut O,
    quiet: bool,
    steps: &[Step],
) -> Result<(), TraceError>
    requires stands { (p : Plan) × (x : Playing) × StandsAt B.left B.runs B.holds B.spot
        (S.knows scripts.now) p core.old x × All (StepNames (length p.scripts)) steps.now }
    requires fit { All StepFits steps.now }
    ensures count { O.faults sink.old ≤ O.faults sink.new }
    ensures well { OnOk result (O.faults sink.new ≡ O.faults sink.old) }
    ensures leads { OnOk result ((p : Plan) (x : Playing) → StandsAt B.left B.runs B.holds B.spot
        (S.knows scripts.now) p core.old x → All (StepNames (length p.scripts)) steps.now →
        Leads B.left B.runs B.holds B.spot (S.knows scripts.now) quiet p x steps.now core.new (O.given sink.old)
        (O.given sink.new)) }
    ensures why { IfErr result (λ e. BrokeBy e (O.faults sink.old) (O.faults sink.new)) }
    ensures breaks { OnErr result ((p : Plan) (x : Playing) →
        StandsAt B.left B.runs B.holds B.spot (S.knows scripts.now) p core.old x →
        All (StepNames (length p.scripts)) steps.now →
        Breaks quiet p x steps.now (O.given sink.old) (O.given sink.new)) }
{
    for step in steps {
        take_step(alloc, core, scripts, sink, quiet, *step)?;
    }
    Ok(())
}

/// The bodies of the roots: the first runs the root line, each other waits for the stop of the pool.
fn roots_of<'a>(
    alloc: Global,
    workers: usize,
    words: &'a [ScriptWord],
    program: Program<'a>,
) -> Result<Vec<Script<'a>>, AllocError>
    requires { 0 < workers }
    ensures { IfOk result (λ roots. roots.items ≡ begun code.Root words.now
        (words_of_all program.entry.scripts.now) program.entry.limits ∷
        replicate (workers - 1) (begun code.Waits [] (words_of_all program.entry.scripts.now) program.entry.limits)) }
{
    let mut roots = Vec::with_capacity(alloc, workers)?;
    roots.push(Script::root(alloc, words, program))?;
    for _ in 1..workers {
        roots.push(Script::waits(alloc, program))?;
    }
    Ok(roots)
}

/// Runs the trace, gives its log, or its quiet log, and passes that on. The errors are `WriteFault` where the sink fails, and
/// `NoMemory` where the executor or a line finds no memory; what was given by then is a front of the log. The caller must
/// have a trace as the reader answers it, which names only scripts that it has, 2^32 at most, whose configuration has each
/// part in its range, and which asks for `MOST_STEPS` steps at most.
pub fn log_trace<O: Output>(
    alloc: Global,
    sink: &mut O,
    quiet: bool,
    trace: Trace,
) -> Result<(), TraceError>
    requires fits { MeaningFits (meaning_of trace) }
    requires in_range { first_out_of_range trace.config ≡ None }
    requires few { length trace.scripts.items ≤ 2 ^ 32 }
    requires steps { sum_by count_of trace.steps.items ≤ MOST_STEPS }
    ensures count { O.faults sink.old ≤ O.faults sink.new }
    ensures well { OnOk result (O.faults sink.new ≡ O.faults sink.old) }
    ensures passes { OnOk result (O.passed sink.new ≡ O.given sink.new) }
    ensures ok { OnOk result ((told : List Told) × IsTheLogOf (meaning_of trace).plan trace.steps.items told
        × Gave (O.given sink.old) (O.given sink.new) (told_text quiet told)) }
    ensures why { IfErr result (λ e. BrokeBy e (O.faults sink.old) (O.faults sink.new)) }
    ensures front { IfErr result (λ e. GaveUpTo e quiet (meaning_of trace) (O.given sink.old) (O.given sink.new)) }
{
    let config = config_of(&trace.config);
    let Configuration {
        workers,
        spin,
        files,
        sockets,
        rw,
        connect,
        ..
    } = trace.config;
    let scripts = trace.scripts.as_slice();
    let limits = Limits { rw, connect };
    let program = Program { scripts, limits };
    let roots = roots_of(alloc, workers, trace.root.as_slice(), program)?;
    let mut core = Core::new(alloc, &config, spin.iterations, files, sockets, roots)?;
    let steps = trace.steps.as_slice();
    let taken = take_steps(alloc, &mut core, &program, sink, quiet, steps);
    // Let go by a call, so that its drop is proved once (docs/DECISIONS.md, 49).
    drop(core);
    taken?;
    flush_all(sink)
}
