//! Clauses of `with`.
ghost use Rattle.std.specs.Prelude.{◌≡◌, string_bytes, IfOk, OnOk};
ghost use Rattle.text_terms.specs.Bytes.{str_bytes};
ghost use Rattle.typing_state.specs.Goes.{Goes, faults_of, OnlyFaults, Told};
ghost use Rattle.module_steps.specs.Modules.{is_hole, ToldUnless};
ghost use Rattle.signature_typing.specs.ModuleTypes.{Given, with_text};

use env_table::{FaultKind, Sig, Template};
use owned_lists::{owned, push};
use row_parts::{Operand, operand_in, token, tokens};
use sig_template::with_type;
use std::alloc::Global;
use std::rc::Rc;
use syntax_tree::{Node, Token};
use text_terms::RcStr;
use type_expressions::{Parameter, Variables, read_type};
use typing_state::{Depth, Env, NoMemory, NodeRef, Parts};

/// y with w and w
pub fn behind_clauses(
    at: &mut Parts,
    base: Rc<Template>,
    clauses: &[Operand<'_>],
    env: &Env,
    depth: Depth,
) -> Result<Rc<Template>, NoMemory>
    ensures goes { Goes at.old at.new }
{
    let mut template = base;
    for clause in clauses {
        template = behind_written(at, template, *clause, env, depth)?;
    }
    Ok(template)
}

/// The same behind one clause, which may be missing.
fn behind_written(
    at: &mut Parts,
    template: Rc<Template>,
    clause: Operand<'_>,
    env: &Env,
    depth: Depth,
) -> Result<Rc<Template>, NoMemory>
    ensures goes { Goes at.old at.new }
{
    match clause.node {
        None => {
            at.note_plain(clause.number, env)?;
            Ok(template)
        }
        Some(node) => behind_clause(at, template, node, clause.number, env, depth),
    }
}

/// type h = t, behind `with`: the type is abstract in the template, then it is read
fn behind_clause(
    at: &mut Parts,
    template: Rc<Template>,
    node: &Node,
    number: u32,
    env: &Env,
    depth: Depth,
) -> Result<Rc<Template>, NoMemory>
    ensures goes { Goes at.old at.new }
{
    let head = clause_head(at, node, number, env)?;
    let (name, parameters) = match head.node {
        Some(inner) => (token(inner, 4), tokens(at.alloc(), inner, 1)?),
        None => (None, Vec::new(at.alloc())),
    };
    let ty = operand_in(node, number, 3);
    let root = clause_root(at, &parameters, ty, env, depth)?;
    let Some(name) = name else {
        return Ok(template);
    };
    let arity = match u32::try_from(parameters.len()) {
        Ok(arity) => arity,
        Err(_) => u32::MAX,
    };
    with_clause(at, template, name, arity, root)
}

/// The head of a clause; both are recorded.
fn clause_head<'a>(
    at: &mut Parts,
    node: &'a Node,
    number: u32,
    env: &Env,
) -> Result<Operand<'a>, NoMemory>
    ensures goes { Goes at.old at.new }
{
    at.note_plain(number, env)?;
    let head = operand_in(node, number, 1);
    at.note_plain(head.number, env)?;
    Ok(head)
}

/// A template with a type given; where it has no such abstract type, that is reported.
fn with_clause(
    at: &mut Parts,
    template: Rc<Template>,
    name: &Token,
    arity: u32,
    root: NodeRef,
) -> Result<Rc<Template>, NoMemory>
    ensures goes { Goes at.old at.new }
{
    let given = with_type(at, &template, name.name.as_str(), arity, root)?;
    given_or_told(at, given, template, name, arity)
}

/// The template that a clause gives, if it gives one; else that is reported, and the template stays.
fn given_or_told(
    at: &mut Parts,
    given: Option<Template>,
    template: Rc<Template>,
    name: &Token,
    arity: u32,
) -> Result<Rc<Template>, NoMemory>
    ensures given { IfOk result (λ t. Given given template.value t.value at.old at.new name.now.span (str_bytes name.now.name) arity) }
    ensures rest { OnlyFaults at.old at.new }
    ensures goes { Goes at.old at.new }
{
    match given {
        Some(given) => owned(at.alloc(), given),
        None => {
            report_with(at, &template.sig, name, arity)?;
            Ok(template)
        }
    }
}

/// Reports a clause on a type that isn't abstract in a signature; where nothing is known of that, it may be.
fn report_with(at: &mut Parts, sig: &Sig, name: &Token, arity: u32) -> Result<(), NoMemory>
    ensures told { OnOk result (ToldUnless (is_hole sig.now) at.old at.new name.now.span FaultKind.With (with_text (str_bytes name.now.name) arity)) }
    ensures rest { OnlyFaults at.old at.new }
    ensures goes { Goes at.old at.new }
{
    match sig {
        Sig::Hole => Ok(()),
        Sig::Structure(_) => tell_with(at, name, arity),
        Sig::Functor(_, _) => tell_with(at, name, arity),
    }
}

fn tell_with(at: &mut Parts, name: &Token, arity: u32) -> Result<(), NoMemory>
    ensures told { OnOk result (Told at.old.telling (faults_of at.old) (faults_of at.new) name.now.span FaultKind.With (with_text (str_bytes name.now.name) arity)) }
    ensures rest { OnlyFaults at.old at.new }
    ensures goes { Goes at.old at.new }
{
    let text = with_message(at.alloc(), name.name.as_str(), arity)?;
    let text = RcStr::new(at.alloc(), text)?;
    at.report(name.span, FaultKind::With, text)
}

fn with_message(alloc: Global, name: &str, arity: u32) -> Result<String, NoMemory>
    ensures { IfOk result (λ t. string_bytes t ≡ with_text name.now arity) }
{
    format!(in alloc; "The signature has no abstract type {name} with {arity} parameters")
}

/// The type of a clause behind its parameters.
fn clause_root(
    at: &mut Parts,
    names: &[&Token],
    ty: Operand<'_>,
    env: &Env,
    depth: Depth,
) -> Result<NodeRef, NoMemory>
    ensures goes { Goes at.old at.new }
{
    at.level = at.level.saturating_add(1);
    let read = clause_type(at, names, ty, env, depth);
    at.level = at.level.saturating_sub(1);
    let root = read?;
    at.generalise(root)?;
    Ok(root)
}

fn clause_type(
    at: &mut Parts,
    names: &[&Token],
    ty: Operand<'_>,
    env: &Env,
    depth: Depth,
) -> Result<NodeRef, NoMemory>
    ensures goes { Goes at.old at.new }
{
    let mut parameters = Vec::new(at.alloc());
    let mut parts = Vec::new(at.alloc());
    for name in names {
        let node = at.var()?;
        let name = name.name.share()?;
        push(&mut parts, node)?;
        push(&mut parameters, Parameter { name, node })?;
    }
    let body = read_type(at, ty, env, &Variables::Parameters(parameters), depth)?;
    if parts.is_empty() {
        return Ok(body);
    }
    push(&mut parts, body)?;
    at.tuple(&parts)
}
