//! What is found in a Ruby text.

ghost use Rattle.std.specs.Prelude.{◌≡◌, ◌<◌, ◌^◌, [], ◌∷◌, length, IfOk, OnOk, Some};
ghost use Rattle.diagnostics.specs.declared.code.Code.TheVariants.{UnsupportedSyntax};
ghost use Rattle.steep_run.specs.Reading.{AreCalled, FindsRuby, Gains};
ghost use Rattle.steep_run.specs.Ruby.{faults_among, form_text, program_faults, statement_faults};

use super::calls::call_in;
use super::class::ClassTable;
use super::judging::{Judgement, judged};
use diagnostics::{Code, Diagnostic};
use method_steps::NameTable;
use ruby_lexer::{Form, RubyAt};
use ruby_parser::parse;
use ruby_tree::{Node, NodeKind, Program};
use sig_rules::Members;
use src_text::{Mem, NoMemory, Seq, Span, Text};
use std::alloc::Global;

/// The faults of a Ruby text, or none where it has a program that isn't small. A text that is refused has one.
pub fn faults<M: Members>(alloc: Global, members: &M, text: &str) -> Mem<Option<Seq<Diagnostic>>>
    requires { length text.now < 2 ^ 32 }
    ensures { IfOk result (FindsRuby (M.all members.now) text.now) }
{
    match parse(alloc, text) {
        Ok(program) => of_program(alloc, members, &program),
        Err(RubyAt::Syntax(at)) => refused(alloc, Code::RubySyntaxError, "Syntax error", at),
        Err(RubyAt::TooDeep(at)) => refused(
            alloc,
            Code::RubySyntaxError,
            "Nesting is deeper than 128",
            at,
        ),
        Err(RubyAt::Unsupported(at, form)) => unsupported(alloc, at, form),
        Err(RubyAt::NoMemory) => Err(NoMemory),
    }
}

// The one fault of a text that is refused at a span.
fn refused(alloc: Global, code: Code, message: &str, at: Span) -> Mem<Option<Seq<Diagnostic>>>
    ensures { IfOk result (λ found. found ≡ Some (record { span = at; code = code; message = message.now; severity = 1 } ∷ [])) }
{
    let mut faults = Seq::new(alloc);
    faults.push(Diagnostic {
        span: at,
        code,
        message: Text::from_str(alloc, message)?,
        severity: 1,
    })?;
    Ok(Some(faults))
}

// The one fault of a text in which a form stands that is refused.
#[tactic(auto, unfolding(crate::specs::Ruby::form_text))]
fn unsupported(alloc: Global, at: Span, form: Form) -> Mem<Option<Seq<Diagnostic>>>
    ensures { IfOk result (λ found. found ≡ Some (record { span = at; code = UnsupportedSyntax; message = form_text form; severity = 1 } ∷ [])) }
{
    let name = form.name();
    let message = format!(in alloc; "Syntax is not supported: {name}")?;
    refused(alloc, Code::UnsupportedSyntax, message.as_str(), at)
}

// The faults of a program, or none where it isn't small.
fn of_program<M: Members>(
    alloc: Global,
    members: &M,
    program: &Program,
) -> Mem<Option<Seq<Diagnostic>>>
    ensures { IfOk result (λ found. found ≡ program_faults (M.all members.now) program.now) }
{
    match &program.root.kind {
        NodeKind::Seq(nodes) => of_statements(alloc, members, nodes.as_slice()),
        _ => Ok(None),
    }
}

fn of_statements<M: Members>(
    alloc: Global,
    members: &M,
    nodes: &[Node],
) -> Mem<Option<Seq<Diagnostic>>>
    ensures { IfOk result (λ found. found ≡ faults_among (M.all members.now) nodes.now) }
{
    let mut classes = NameTable::new(alloc);
    let mut faults = Seq::new(alloc);
    let mut rest = nodes;
    while let [node, more @ ..] = rest {
        if !add_statement(alloc, members, &mut classes, node, &mut faults)? {
            return Ok(None);
        }
        rest = more;
    }
    Ok(Some(faults))
}

// Adds the fault of a statement, if it has one, and says whether it is a call that can be judged.
fn add_statement<M: Members>(
    alloc: Global,
    members: &M,
    classes: &mut ClassTable,
    node: &Node,
    faults: &mut Seq<Diagnostic>,
) -> Mem<bool>
    requires called { AreCalled (M.all members.now) classes.old }
    ensures called { OnOk result (AreCalled (M.all members.now) classes.new) }
    ensures gains { IfOk result (λ stands. Gains (statement_faults (M.all members.now) node.now) stands faults.old faults.new) }
{
    let call = match call_in(node) {
        Some(call) => call,
        None => return Ok(false),
    };
    match judged(alloc, members, classes, &call)? {
        Judgement::Misfit => return Ok(false),
        Judgement::Known => {}
        Judgement::Missing(fault) => faults.push(fault)?,
    }
    Ok(true)
}
