ghost use Rattle.std.specs.Prelude.{◌≡◌, ◌⊎◌, ◌≤◌, ◌<◌, ◌^◌, ◌↔◌, IfSome, IfOk, Some, None, [], ◌∷◌, map, string_bytes, length, codes, false};
ghost use Rattle.steep_run.specs.declared.faults.Faults.{Faults};
ghost use Rattle.steep_run.specs.declared.project.Project.{Project};
ghost use Rattle.ports.specs.Causes.{Rose};
ghost use Rattle.steep_run.specs.Project.{project_of, first_too_long, count_of};
ghost use Rattle.steep_run.specs.Report.{Reports, HasFaults, IsSilent, is_check, HasCauses};
ghost use Rattle.steep_run.specs.Reading.{IsChecked, Writes, passed, too_much};
ghost use Rattle.steep_run.specs.Signature.{SignatureGives, signature_file, IsWithinLimits};
ghost use Rattle.definitions.specs.Project.{IsProject};

use crate::faults::Faults;
use crate::outcome::{Outcome, Part};
use crate::plan::{CheckPlan, is_check_alone};
use crate::project::{Project, SIGNATURE, first_too_long, read_project};
use crate::report::report_text;
use crate::ruby::faults;
use crate::signature::{FoundSignature, read_signature};
use crate::small::is_small;
use crate::writing::write_all;
use definitions::FreshTable;
use diagnostics::Diagnostic;
use ports::{Gate, Sink, Source, Tree, TreeFault};
use rbs_tree::Decl;
use sig_rules::{FileTree, Limit, LimitFault, Members};
use src_text::{Mem, NoMemory, Seq, Text};
use std::alloc::Global;
use std::sync::Wait;
use std::thread::Threads;
use std::{mem, slice};

/// The program: what the words ask for, over the source, the sink and the tree that are handed in. Only `check` alone is built.
pub fn run<R: Threads + Wait + Sync, S: Source, K: Sink + Send, T: Tree, G: Gate + Sync>(
    rt: &R,
    alloc: Global,
    words: &[String],
    source: &mut S,
    sink: &mut K,
    tree: &mut T,
    _gate: &G,
) -> Outcome
    // Where the tree tells its files, a check writes the report of exactly these.
    ensures report { IfSome (T.files tree.old) (λ files. Reports (project_of (codes ".") files) (K.held sink.old) (K.held sink.new) result) }
    ensures words { result ≡ Outcome.Unbuilt Part.Words ↔ (is_check (map string_bytes words.now) ≡ false) }
    ensures silent { IsSilent (K.held sink.old) (K.held sink.new) result }
    ensures cause { HasCauses (T.faults tree.old) (T.faults tree.new) (K.faults sink.old) (K.faults sink.new) (K.stalls sink.old) (K.stalls sink.new) result }

    // The files stay as they are, and nothing is taken of the source.
    ensures tree { T.files tree.new ≡ T.files tree.old }
    ensures source { S.left source.new ≡ S.left source.old }
    ensures source_faults { S.faults source.new ≡ S.faults source.old }
{
    if !is_check_alone(words) {
        return Outcome::Unbuilt(Part::Words);
    }
    let Ok(root) = Text::from_str(alloc, ".") else {
        return Outcome::NoMemory;
    };
    let plan = CheckPlan { root, jobs: 1 };
    run_check(rt, alloc, &plan, sink, tree)
}

/// Checks the project below the plan's root.
pub fn run_check<R: Threads + Sync, K: Sink, T: Tree>(
    _rt: &R,
    alloc: Global,
    plan: &CheckPlan,
    sink: &mut K,
    tree: &mut T,
) -> Outcome
    requires root { 0 < length plan.now.root }
    requires jobs { (1 ≤ plan.now.jobs) × (plan.now.jobs ≤ 64) }
    ensures report { IfSome (T.files tree.old) (λ files. Reports (project_of plan.now.root files) (K.held sink.old) (K.held sink.new) result) }
    ensures words { ¬ (result ≡ Outcome.Unbuilt Part.Words) }
    ensures silent { IsSilent (K.held sink.old) (K.held sink.new) result }
    ensures cause { HasCauses (T.faults tree.old) (T.faults tree.new) (K.faults sink.old) (K.faults sink.new) (K.stalls sink.old) (K.stalls sink.new) result }
    ensures tree { T.files tree.new ≡ T.files tree.old }
{
    match read_project(alloc, tree, plan.root.as_str()) {
        Ok(project) => report_to(alloc, sink, &project),
        Err(TreeFault::Failed) => Outcome::TreeFault,
        Err(TreeFault::NoMemory) => Outcome::NoMemory,
    }
}

/// A law, and no work: a project has one list of faults for each file at most, so that its report is one text.
pub fn has_one_list_of_faults()
    ensures { (p : Project) (xs ys : Faults) → HasFaults p xs → HasFaults p ys → xs ≡ ys }
{}

// Checks a project, and writes its report.
fn report_to<K: Sink>(alloc: Global, sink: &mut K, project: &Project) -> Outcome
    ensures report { Reports project.now (K.held sink.old) (K.held sink.new) result }
    ensures words { ¬ (result ≡ Outcome.Unbuilt Part.Words) }
    ensures silent { IsSilent (K.held sink.old) (K.held sink.new) result }
    ensures tree { ¬ (result ≡ Outcome.TreeFault) }
    ensures cause { result ≡ Outcome.SinkFault → Rose (K.faults sink.old) (K.faults sink.new) ⊎ Rose (K.stalls sink.old) (K.stalls sink.new) }
{
    if let Some(length) = first_too_long(project) {
        return Outcome::TooLarge(Limit::File, length);
    }
    match checked(alloc, project) {
        Ok(Verdict::TooManyNames(count)) => Outcome::TooLarge(Limit::Names, count),
        Ok(Verdict::TooManyMethods(count)) => Outcome::TooLarge(Limit::Methods, count),
        Ok(Verdict::NoSignature) => Outcome::Unbuilt(Part::Signature),
        Ok(Verdict::NoRuby) => Outcome::Unbuilt(Part::Ruby),
        Ok(Verdict::Checked(faults)) => write_report(alloc, sink, project, &faults),
        Err(_) => Outcome::NoMemory,
    }
}

/// What the texts of a project are found to be.
#[derive(Debug, Drop)]
pub enum Verdict {
    /// So many names are declared, and they are too many.
    TooManyNames(u64),
    /// Some definition has so many methods, and they are too many.
    TooManyMethods(u64),
    /// Neither is so, and the signature has a tree that isn't small.
    NoSignature,
    /// None of these is so, and the Ruby text has a program that isn't small.
    NoRuby,
    /// Both texts are checked, with these faults.
    Checked(Faults),
}

fn checked(alloc: Global, project: &Project) -> Mem<Verdict>
    requires { first_too_long project.now ≡ None }
    ensures { IfOk result (IsChecked project.now) }
{
    let found = read_signature(alloc, project.signature.as_str())?;
    checked_over(alloc, project, found)
}

// What the texts are found to be, by what the signature gives.
fn checked_over(alloc: Global, project: &Project, found: FoundSignature) -> Mem<Verdict>
    requires sizes { first_too_long project.now ≡ None }
    requires gives { SignatureGives project.now.signature found.tree found.faults }
    ensures { IfOk result (IsChecked project.now) }
{
    let file = FileTree {
        path: Text::from_str(alloc, SIGNATURE)?,
        decls: found.tree,
    };
    match FreshTable::new(alloc, slice::from_ref(&file)) {
        Ok(table) => {
            let verdict = judged(alloc, project, &table, file.decls.as_slice(), found.faults);
            left_to_the_end(table, file);
            verdict
        }
        Err(fault) => too_much(fault),
    }
}

// Leaves the memory of a project's table and tree to the end of the program, which is right behind a check: giving it back piece by piece
// takes a fifth of the whole time.
fn left_to_the_end(table: FreshTable, file: FileTree) {
    mem::forget(table);
    mem::forget(file);
}

// What the texts are found to be where there is too much to be declared.
fn too_much(fault: LimitFault) -> Mem<Verdict>
    ensures { IfOk result (λ verdict. Some verdict ≡ too_much fault) }
{
    match fault {
        LimitFault::Limit(limit, count) => passed(limit, count),
        LimitFault::NoMemory => Err(NoMemory),
    }
}

// The same of one limit. Only names and methods are counted there.
fn passed(limit: Limit, count: u64) -> Mem<Verdict>
    ensures { IfOk result (λ verdict. Some verdict ≡ passed limit count) }
{
    match limit {
        Limit::Names => Ok(Verdict::TooManyNames(count)),
        Limit::Methods => Ok(Verdict::TooManyMethods(count)),
        Limit::File | Limit::Files | Limit::Total => Err(NoMemory),
    }
}

// What the texts are found to be, by the signature's declarations and by all that is declared, which is no more than may be.
fn judged<M: Members>(
    alloc: Global,
    project: &Project,
    members: &M,
    decls: &[Decl],
    signature: Seq<Diagnostic>,
) -> Mem<Verdict>
    requires sizes { first_too_long project.now ≡ None }
    requires gives { SignatureGives project.now.signature decls.now signature }
    requires declares { IsProject (signature_file decls.now ∷ []) (M.all members.now) }
    requires limits { IsWithinLimits (M.all members.now) }
    ensures { IfOk result (IsChecked project.now) }
{
    if !is_small(alloc, decls)? {
        return Ok(Verdict::NoSignature);
    }
    match faults(alloc, members, project.ruby.as_str())? {
        Some(ruby) => Ok(Verdict::Checked(Faults { ruby, signature })),
        None => Ok(Verdict::NoRuby),
    }
}

fn write_report<K: Sink>(alloc: Global, sink: &mut K, project: &Project, faults: &Faults) -> Outcome
    requires { first_too_long project.now ≡ None }
    ensures report { Writes project.now faults.now (K.held sink.old) (K.held sink.new) result }
    ensures cause { result ≡ Outcome.SinkFault → Rose (K.faults sink.old) (K.faults sink.new) ⊎ Rose (K.stalls sink.old) (K.stalls sink.new) }
{
    let Ok(text) = report_text(alloc, project, faults) else {
        return Outcome::NoMemory;
    };
    if write_all(sink, text.as_str().as_bytes()).is_err() {
        return Outcome::SinkFault;
    }
    match faults.count() {
        0 => Outcome::Clean,
        count => Outcome::Found(count),
    }
}
