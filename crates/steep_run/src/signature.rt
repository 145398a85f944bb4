ghost use Rattle.std.specs.Prelude.{◌≡◌, ◌<◌, ◌^◌, [], ◌∷◌, length, IfOk};
ghost use Rattle.diagnostics.specs.declared.code.Code.TheVariants.{RbsSyntaxError};
ghost use Rattle.steep_run.specs.Signature.{SignatureGives};

use diagnostics::{Code, Diagnostic};
use rbs_parser::{ParseFault, parse};
use rbs_tree::Decl;
use src_text::{Mem, NoMemory, Seq, Span, Text};
use std::alloc::Global;

/// What a signature text gives: the declarations of its tree, or its diagnostic.
#[derive(Drop)]
pub struct FoundSignature {
    pub tree: Seq<Decl>,
    pub faults: Seq<Diagnostic>,
}

/// What a signature text gives. Whether the tree is small isn't looked at.
pub fn read_signature(alloc: Global, text: &str) -> Mem<FoundSignature>
    requires { length text.now < 2 ^ 32 }
    ensures { IfOk result (λ found. SignatureGives text.now found.tree found.faults) }
{
    match parse(alloc, text) {
        Ok(tree) => Ok(FoundSignature {
            tree,
            faults: Seq::new(alloc),
        }),
        Err(ParseFault::Syntax(at)) => refused(alloc, "Syntax error", at),
        Err(ParseFault::TooDeep(at)) => refused(alloc, "Nesting is deeper than 128", at),
        Err(ParseFault::NoMemory) => Err(NoMemory),
    }
}

// Nothing is declared, and the one diagnostic stands where the text is refused.
fn refused(alloc: Global, message: &str, at: Span) -> Mem<FoundSignature>
    ensures { IfOk result (λ found. found ≡ record { tree = []; faults = record { span = at; code = RbsSyntaxError; message = message.now; severity = 1 } ∷ [] }) }
{
    let mut faults = Seq::new(alloc);
    faults.push(Diagnostic {
        span: at,
        code: Code::RbsSyntaxError,
        message: Text::from_str(alloc, message)?,
        severity: 1,
    })?;
    Ok(FoundSignature {
        tree: Seq::new(alloc),
        faults,
    })
}
