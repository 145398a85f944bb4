//! What is said of a call over what is declared.

ghost use Rattle.std.specs.Prelude.{◌≡◌, IfOk, OnOk};
ghost use Rattle.steep_run.specs.Ruby.{call_faults, call_of, fault_at};
ghost use Rattle.steep_run.specs.Reading.{AreCalled, IsJudgedBy, is_private, suits, told};

use super::callable::Callable;
use super::calls::FoundCall;
use super::class::{ClassTable, asked, note_class};
use diagnostics::{Code, Diagnostic};
use sig_rules::Members;
use src_text::{Mem, Text};
use std::alloc::Global;

/// What is said of a call.
#[derive(Debug, Drop)]
pub enum Judgement {
    /// Its class makes no object that can be judged, or its method wants other arguments.
    Misfit,
    Known,
    Missing(Diagnostic),
}

/// What is said of a call over what is declared.
pub fn judged<M: Members>(
    alloc: Global,
    members: &M,
    classes: &mut ClassTable,
    call: &FoundCall<'_>,
) -> Mem<Judgement>
    requires called { AreCalled (M.all members.now) classes.old }
    ensures called { OnOk result (AreCalled (M.all members.now) classes.new) }
    ensures judged { IfOk result (λ said. told said ≡ call_faults (M.all members.now) (call_of call.now)) }
{
    note_class(alloc, members, classes, call.class)?;
    match classes.get(call.class) {
        None => Ok(Judgement::Misfit),
        Some(methods) => judged_by(alloc, asked(methods, &call.method.name), call),
    }
}

// What is said of a call by what calls of its method are judged by.
fn judged_by(alloc: Global, callable: Callable, call: &FoundCall<'_>) -> Mem<Judgement>
    ensures { IfOk result (IsJudgedBy (suits call.now.numbers callable) (is_private callable) (call_of call.now)) }
{
    match callable {
        Callable::Private => Ok(Judgement::Missing(missing(alloc, call)?)),
        Callable::Plain(wanted) => {
            if wanted == call.numbers {
                Ok(Judgement::Known)
            } else {
                Ok(Judgement::Misfit)
            }
        }
        Callable::Other => Ok(Judgement::Misfit),
    }
}

#[tactic(auto, unfolding(crate::specs::Ruby::fault_text))]
fn missing(alloc: Global, call: &FoundCall<'_>) -> Mem<Diagnostic>
    ensures { IfOk result (λ fault. fault ≡ fault_at (call_of call.now)) }
{
    let class = call.class.as_str();
    let method = call.method.name.as_str();
    let message = format!(in alloc; "Type `::{class}` does not have method `{method}`")?;
    Ok(Diagnostic {
        span: call.method.at,
        code: Code::NoMethod,
        message: Text::from_string(message),
        severity: 1,
    })
}
