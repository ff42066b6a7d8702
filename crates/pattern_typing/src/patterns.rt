//! Patterns.
#![tactic(auto, using(typing_state::proofs::Going::goes_trans, typing_state::proofs::Going::goes_refl, typing_state::proofs::Silence::store_silent, crate::proofs::Binding::binds_none, crate::proofs::Binding::binds_both, crate::proofs::Binding::binds_ends, crate::proofs::Binding::binds_one, crate::proofs::PatternLaws::slot_binds, crate::proofs::PatternLaws::slots_bind))]

ghost use Rattle.std.specs.Prelude.{◌≡◌, ℕ, [], ◌∷◌, ◌++◌, List, map, option_map, slice_get, None, Some, All, IfOk, OnOk};
ghost use Rattle.tree_model.specs.Rows.{pname_row, pcon_row, pparen_row, plist_row, precord_row, papp_row, pcons_row, ptuple_row, por_row, pas_row};
ghost use Rattle.syntax_tree.specs.View.{place_of, tok_of, node_view};
ghost use Rattle.row_parts.specs.Numbered.{all_operands, in_slot, in_slots, operand_view, operands_in, path_in, path_view, token_in};
ghost use Rattle.typing_state.specs.Goes.{Goes, Silent};
ghost use Rattle.use_typing.specs.Constants.{TellsRange, is_negated};
ghost use Rattle.use_typing.specs.Labels.{toks_of};
ghost use Rattle.use_typing.specs.Uses.{TellsUse};
ghost use Rattle.pattern_typing.specs.Names.{TellsName, TellsNameIf};
ghost use Rattle.use_typing.specs.Paths.{path_at};
ghost use Rattle.pattern_names.specs.PatternNames.{bound_as, constructor_at, field_pattern_names, find_name, later, name_of, names_in, names_of, names_of_first, names_of_tree, parts_of_pattern, pattern_names, side_at, sides_of};
ghost use Rattle.pattern_typing.specs.Matching.{AsksFirst, Binds, bind_of, binds_of, names_seen, nodes_of, parts_of_sides, side_of, side_view, tokens_of, typed_view};
ghost use Rattle.row_parts.specs.Numbered.{Numbered};
ghost use Rattle.type_nodes.specs.Views.{numbers};
ghost use Rattle.typing_model.specs.BuiltIns.{constant};
ghost use Rattle.operand_laws.specs.Operands.{number_of, pattern_of};
ghost use Rattle.typing_steps.specs.Typing.{path_as};
ghost use Rattle.typing_conditions.specs.Surroundings.{IsEntry};
ghost use Rattle.signature_model.specs.Declarations.{Name, in_text};
ghost use Rattle.typing_model.specs.Parts as parts;
ghost use Rattle.pattern_rows.specs.Applied.{AppliesConstructor, MatchesApplied, MatchesWanted};
ghost use Rattle.pattern_rows.specs.Bounds.{Bind};
ghost use Rattle.pattern_rows.specs.CarriedPatterns.{IsCarriedPattern, MatchesBeside, MatchesNode, MatchesNodeOf, MatchesOperand, MatchesOperands};
ghost use Rattle.pattern_rows.specs.Contracts.{AsksEach, AsksFresh, EndsPatterns, Matches, cons_asks, list_asks, patterns_of};
ghost use Rattle.pattern_rows.specs.Named.{BindsName, BindsNameIf, NotesAny, NotesRow};
ghost use Rattle.record_rows.specs.Fields.{BindsLabel, FieldsInOrder, Puns};
ghost use Rattle.record_rows.specs.Operands.{IsCarriedField, MatchesFieldPart, MatchesRecord, MatchesWritten, PunsWritten, fields_of};
ghost use Rattle.pattern_typing.specs.Records.{here_of};
ghost use Rattle.pattern_rows.specs.Sides.{AsksBeside, AsksLater, AsksName, AsksNames, AsksSides, Side, find_bind, first_apart_here, name_apart_here};
ghost use Rattle.typing_state.specs.Notes.{IsRecorded};

use env_table::{Entry, Kind, Place, What};
use owned_lists::{owned, push};
use row_parts::{
    Operand, WrittenPath, first_operand, operand_in, operands, operands_of, token, written_path,
};
use std::alloc::Global;
use std::rc::Rc;
use syntax_tree::{Node, RowName, Span, Token};
use type_expressions::as_written;
use typing_state::{Depth, Env, NoMemory, NodeRef, Parts, share_entry};
use use_typing::{
    Fields, Mentioned, RecordType, Sign, begin_field, constant, constructor, equal_if, is_again,
    note_label, note_missing, record_of_fields, type_or_var, written_at,
};

/// A name that a pattern binds, with its type.
#[derive(Drop)]
pub struct BoundName<'a> {
    pub token: &'a Token,
    pub node: NodeRef,
    pub entry: Rc<Entry>,
}

/// A pattern's type and the names that it binds, in order.
#[derive(Drop)]
pub struct Matched<'a> {
    pub ty: NodeRef,
    pub names: Vec<BoundName<'a>>,
}

/// A pattern in a row with its type.
#[derive(Clone, Copy)]
struct TypedPart<'a> {
    part: Operand<'a>,
    ty: NodeRef,
}

/// A side of an or-pattern with its type and the names that it binds.
#[derive(Drop)]
struct SideMatch<'a> {
    part: Operand<'a>,
    ty: NodeRef,
    names: Vec<BoundName<'a>>,
}

/// A name with a type, as an entry.
fn bound_name<'a>(at: &Parts, token: &'a Token, node: NodeRef) -> Result<BoundName<'a>, NoMemory>
    ensures token { IfOk result (λ b. b.token ≡ token.entry) }
    ensures node { IfOk result (λ b. b.node ≡ node) }
    ensures entry { IfOk result (λ b. IsEntry b.entry.value (tok_of token.now).name (in_text (parts.place_of (tok_of token.now))) node) }
{
    let entry = Entry {
        name: token.name.share()?,
        kind: Kind::Value,
        place: Place::Buffer(token.span),
        what: What::Scheme(node),
    };
    let entry = owned(at.alloc(), entry)?;
    Ok(BoundName { token, node, entry })
}

/// The demand that a name is new within its pattern.
fn is_new<'a>(at: &mut Parts, seen: &mut Mentioned<'a>, token: &'a Token) -> Result<(), NoMemory>
    ensures fresh { OnOk result (AsksFresh at.old at.new (tok_of token.now) (names_seen seen.old.items)) }
    ensures tells { OnOk result (TellsName (toks_of seen.old.items) (tok_of token.now) at.old at.new) }
    ensures seen { OnOk result (toks_of seen.new.items ≡ toks_of seen.old.items ++ tok_of token.now ∷ []) }
    ensures goes { Goes at.old at.new }
{
    if is_again(seen, token)? {
        at.twice(token.span, token.name.as_str())?;
    }
    Ok(())
}

/// Types a pattern, or a missing one, behind the names that stand in front of it; those in it are added to them. It is recorded.
pub fn type_pattern<'a>(
    at: &mut Parts,
    p: Operand<'a>,
    env: &Env,
    seen: &mut Mentioned<'a>,
    depth: Depth,
) -> Result<Matched<'a>, NoMemory>
    ensures carries { IfOk result (λ m. IsCarriedPattern (operand_view p.entry) → Matches at.old at.new env.now (pattern_of at.old.item (operand_view p.entry)) [] (binds_of m.names.items) (names_seen seen.old.items) (names_seen seen.new.items) m.ty.0) }
    ensures names { IfOk result (λ m. Binds [] m.names.items (pattern_names (operand_view p.entry))) }
    ensures goes { Goes at.old at.new }
{
    let mut names = Vec::new(at.alloc());
    let ty = match_pattern(at, p, env, &mut names, seen, depth)?;
    Ok(Matched { ty, names })
}

/// The same, where the names that it binds are put behind others.
#[cycle(patterns)]
fn match_pattern<'a>(
    at: &mut Parts,
    p: Operand<'a>,
    env: &Env,
    names: &mut Vec<BoundName<'a>>,
    seen: &mut Mentioned<'a>,
    depth: Depth,
) -> Result<NodeRef, NoMemory>
    ensures carries { IfOk result (λ m. MatchesOperand at.old at.new env.now (operand_view p.entry) (binds_of names.old.items) (binds_of names.new.items) (names_seen seen.old.items) (names_seen seen.new.items) m.0) }
    ensures names { OnOk result (Binds names.old.items names.new.items (pattern_names (operand_view p.entry))) }
    ensures goes { Goes at.old at.new }
{
    match p.node {
        Some(node) => match_node(at, node, p.number, env, names, seen, depth),
        None => anything(at, p.number, env),
    }
}

/// A pattern by its row.
#[cycle(patterns)]
fn match_node<'a>(
    at: &mut Parts,
    node: &'a Node,
    number: u32,
    env: &Env,
    names: &mut Vec<BoundName<'a>>,
    seen: &mut Mentioned<'a>,
    depth: Depth,
) -> Result<NodeRef, NoMemory>
    ensures carries { IfOk result (λ m. MatchesNode at.old at.new env.now number (node_view node.now) (binds_of names.old.items) (binds_of names.new.items) (names_seen seen.old.items) (names_seen seen.new.items) m.0) }
    ensures names { OnOk result (Binds names.old.items names.new.items (names_of_tree number (node_view node.now))) }
    ensures goes { Goes at.old at.new }
{
    match node.row {
        RowName::Papp => applied(at, node, number, env, names, seen, depth),
        RowName::Precord => record(at, node, number, env, names, seen, depth),
        RowName::Por => alternatives(at, node, number, env, names, seen, depth),
        RowName::Pparen => parenthesised(at, node, number, env, names, seen, depth),
        RowName::Plist => list(at, node, number, env, names, seen, depth),
        RowName::Pcons => cons(at, node, number, env, names, seen, depth),
        RowName::Ptuple => tuple(at, node, number, env, names, seen, depth),
        RowName::Pas => named(at, node, number, env, names, seen, depth),
        RowName::Pname => name(at, node, number, env, names, seen),
        RowName::Pcon => constant_constructor(at, node, number, env),
        RowName::Pconst => number_row(at, token(node, 0), Sign::None, number, env),
        RowName::Pneg => number_row(at, token(node, 1), Sign::Minus, number, env),
        _ => anything(at, number, env),
    }
}

/// The patterns between brackets, one after the other.
#[cycle(patterns)]
fn in_brackets<'a>(
    at: &mut Parts,
    node: &'a Node,
    number: u32,
    env: &Env,
    names: &mut Vec<BoundName<'a>>,
    seen: &mut Mentioned<'a>,
    depth: Depth,
) -> Result<Vec<TypedPart<'a>>, NoMemory>
    ensures carries { IfOk result (λ ts. MatchesOperands at.old at.new env.now (operands_in number (node_view node.now) 1) (binds_of names.old.items) (binds_of names.new.items) (names_seen seen.old.items) (names_seen seen.new.items) (nodes_of ts.items)) }
    ensures names { OnOk result (Binds names.old.items names.new.items (names_of (in_slot 1 (parts_of_pattern number (node_view node.now))))) }
    ensures typed { IfOk result (λ ts. typed_view ts.items ≡ operands_in number (node_view node.now) 1) }
    ensures goes { Goes at.old at.new }
{
    let parts = operands(at.alloc(), node, number, 1)?;
    in_order(at, &parts, env, names, seen, depth)
}

/// All patterns that are the parts of a row, one after the other.
#[cycle(patterns)]
fn in_row<'a>(
    at: &mut Parts,
    node: &'a Node,
    number: u32,
    env: &Env,
    names: &mut Vec<BoundName<'a>>,
    seen: &mut Mentioned<'a>,
    depth: Depth,
) -> Result<Vec<TypedPart<'a>>, NoMemory>
    ensures carries { IfOk result (λ ts. MatchesOperands at.old at.new env.now (all_operands number (node_view node.now)) (binds_of names.old.items) (binds_of names.new.items) (names_seen seen.old.items) (names_seen seen.new.items) (nodes_of ts.items)) }
    ensures names { OnOk result (Binds names.old.items names.new.items (names_of (in_slots (parts_of_pattern number (node_view node.now))))) }
    ensures typed { IfOk result (λ ts. typed_view ts.items ≡ all_operands number (node_view node.now)) }
    ensures goes { Goes at.old at.new }
{
    let parts = operands_of(at.alloc(), node, number)?;
    in_order(at, &parts, env, names, seen, depth)
}

/// Some patterns, one after the other.
#[cycle(patterns)]
fn in_order<'a>(
    at: &mut Parts,
    parts: &[Operand<'a>],
    env: &Env,
    names: &mut Vec<BoundName<'a>>,
    seen: &mut Mentioned<'a>,
    depth: Depth,
) -> Result<Vec<TypedPart<'a>>, NoMemory>
    ensures carries { IfOk result (λ ts. MatchesOperands at.old at.new env.now (map operand_view parts.now) (binds_of names.old.items) (binds_of names.new.items) (names_seen seen.old.items) (names_seen seen.new.items) (nodes_of ts.items)) }
    ensures names { OnOk result (Binds names.old.items names.new.items (names_in pattern_names (map operand_view parts.now))) }
    ensures typed { IfOk result (λ ts. typed_view ts.items ≡ map operand_view parts.now) }
    ensures goes { Goes at.old at.new }
{
    let mut typed = Vec::new(at.alloc());
    for part in parts {
        let ty = match_pattern(at, *part, env, names, seen, depth.inside()?)?;
        push(&mut typed, TypedPart { part: *part, ty })?;
    }
    Ok(typed)
}

/// A constant, directly under this sign.
fn number_row(
    at: &mut Parts,
    token: Option<&Token>,
    sign: Sign,
    number: u32,
    env: &Env,
) -> Result<NodeRef, NoMemory>
    ensures carries { IfOk result (λ m. NotesRow at.old at.new env.now number (λ n. constant (is_negated sign) n (option_map (λ t. tok_of t.now) token.entry)) m) }
    ensures tells { OnOk result (TellsRange (option_map (λ t. tok_of t.now) token.entry) (is_negated sign) at.old at.new) }
    ensures goes { Goes at.old at.new }
{
    let ty = constant(at, token, sign)?;
    at.note_type(number, env, ty)?;
    Ok(ty)
}

/// _, what is no pattern, and a missing one: any type
fn anything(at: &mut Parts, number: u32, env: &Env) -> Result<NodeRef, NoMemory>
    ensures carries { IfOk result (λ m. NotesAny at.old at.new env.now number m) }
    ensures goes { Goes at.old at.new }
{
    let ty = at.var()?;
    at.note_type(number, env, ty)?;
    Ok(ty)
}

/// A
fn constant_constructor(
    at: &mut Parts,
    node: &Node,
    number: u32,
    env: &Env,
) -> Result<NodeRef, NoMemory>
    ensures carries { IfOk result (λ m. (names : List Bind) (seen : List Name) → MatchesNodeOf pcon_row at.old at.new env.now number (node_view node.now) names names seen seen m.0) }
    ensures tells { OnOk result (TellsUse (path_in (node_view node.now) 0 1) 0 at.old at.new env.now) }
    ensures goes { Goes at.old at.new }
{
    let path = written_path(at.alloc(), node, 0, 1)?;
    let found = constructor(at, env, &path, 0)?;
    at.note(number, env, Some(found.built), found.names)?;
    Ok(found.built)
}

/// x
fn name<'a>(
    at: &mut Parts,
    node: &'a Node,
    number: u32,
    env: &Env,
    names: &mut Vec<BoundName<'a>>,
    seen: &mut Mentioned<'a>,
) -> Result<NodeRef, NoMemory>
    ensures carries { IfOk result (λ m. MatchesNodeOf pname_row at.old at.new env.now number (node_view node.now) (binds_of names.old.items) (binds_of names.new.items) (names_seen seen.old.items) (names_seen seen.new.items) m.0) }
    ensures tells { OnOk result (TellsNameIf (toks_of seen.old.items) (token_in (node_view node.now) 0) at.old at.new) }
    ensures seen { OnOk result (toks_of seen.new.items ≡ toks_of seen.old.items ++ name_of (token_in (node_view node.now) 0)) }
    ensures names { OnOk result (Binds names.old.items names.new.items (name_of (token_in (node_view node.now) 0))) }
    ensures goes { Goes at.old at.new }
{
    let ty = at.var()?;
    bind_if(at, token(node, 0), ty, number, env, names, seen)?;
    Ok(ty)
}

/// Binds the name of a row to its type, where the name is written; the row is recorded.
fn bind_if<'a>(
    at: &mut Parts,
    token: Option<&'a Token>,
    ty: NodeRef,
    number: u32,
    env: &Env,
    names: &mut Vec<BoundName<'a>>,
    seen: &mut Mentioned<'a>,
) -> Result<(), NoMemory>
    ensures binds { OnOk result (BindsNameIf (option_map (λ t. tok_of t.now) token.entry) at.old at.new env.now number ty (binds_of names.old.items) (binds_of names.new.items) (names_seen seen.old.items) (names_seen seen.new.items)) }
    ensures tells { OnOk result (TellsNameIf (toks_of seen.old.items) (option_map (λ t. tok_of t.now) token.entry) at.old at.new) }
    ensures seen { OnOk result (toks_of seen.new.items ≡ toks_of seen.old.items ++ name_of (option_map (λ t. tok_of t.now) token.entry)) }
    ensures names { OnOk result (Binds names.old.items names.new.items (name_of (option_map (λ t. tok_of t.now) token.entry))) }
    ensures goes { Goes at.old at.new }
{
    match token {
        Some(token) => bind(at, token, ty, number, env, names, seen),
        None => at.note_type(number, env, ty),
    }
}

/// Binds the name of a row to its type; the row is recorded.
fn bind<'a>(
    at: &mut Parts,
    token: &'a Token,
    ty: NodeRef,
    number: u32,
    env: &Env,
    names: &mut Vec<BoundName<'a>>,
    seen: &mut Mentioned<'a>,
) -> Result<(), NoMemory>
    ensures binds { OnOk result (BindsName at.old at.new env.now number (tok_of token.now) ty (binds_of names.old.items) (binds_of names.new.items) (names_seen seen.old.items) (names_seen seen.new.items)) }
    ensures tells { OnOk result (TellsName (toks_of seen.old.items) (tok_of token.now) at.old at.new) }
    ensures seen { OnOk result (toks_of seen.new.items ≡ toks_of seen.old.items ++ tok_of token.now ∷ []) }
    ensures names { OnOk result (Binds names.old.items names.new.items (tok_of token.now ∷ [])) }
    ensures goes { Goes at.old at.new }
{
    is_new(at, seen, token)?;
    let bound = bound_name(at, token, ty)?;
    let seen_names = at.one_name(Some(&bound.entry))?;
    at.note(number, env, Some(ty), seen_names)?;
    push(names, bound)
}

/// p as x: the name has the type of the pattern
#[cycle(patterns)]
fn named<'a>(
    at: &mut Parts,
    node: &'a Node,
    number: u32,
    env: &Env,
    names: &mut Vec<BoundName<'a>>,
    seen: &mut Mentioned<'a>,
    depth: Depth,
) -> Result<NodeRef, NoMemory>
    ensures carries { IfOk result (λ m. MatchesNodeOf pas_row at.old at.new env.now number (node_view node.now) (binds_of names.old.items) (binds_of names.new.items) (names_seen seen.old.items) (names_seen seen.new.items) m.0) }
    ensures names { OnOk result (Binds names.old.items names.new.items (bound_as pas_row number (node_view node.now))) }
    ensures goes { Goes at.old at.new }
{
    let typed = in_row(at, node, number, env, names, seen, depth)?;
    let ty = first_type(at, &typed)?;
    bind_if(at, token(node, 2), ty, number, env, names, seen)?;
    Ok(ty)
}

/// The type of the first part; where there is none, any type.
fn first_type(at: &mut Parts, typed: &[TypedPart<'_>]) -> Result<NodeRef, NoMemory>
    ensures first { IfOk result (λ m. (o : Numbered) (os : List Numbered) → typed_view typed.now ≡ o ∷ os → (slice_get (nodes_of typed.now) 0 ≡ Some m.0) × (at.new ≡ at.old)) }
    ensures silent { Silent at.old at.new }
    ensures goes { Goes at.old at.new }
{
    match typed.first() {
        Some(first) => Ok(first.ty),
        None => at.var(),
    }
}

/// ( p ), ( p : t ): the part has the written type
#[cycle(patterns)]
fn parenthesised<'a>(
    at: &mut Parts,
    node: &'a Node,
    number: u32,
    env: &Env,
    names: &mut Vec<BoundName<'a>>,
    seen: &mut Mentioned<'a>,
    depth: Depth,
) -> Result<NodeRef, NoMemory>
    ensures carries { IfOk result (λ m. MatchesNodeOf pparen_row at.old at.new env.now number (node_view node.now) (binds_of names.old.items) (binds_of names.new.items) (names_seen seen.old.items) (names_seen seen.new.items) m.0) }
    ensures names { OnOk result (Binds names.old.items names.new.items (bound_as pparen_row number (node_view node.now))) }
    ensures goes { Goes at.old at.new }
{
    let typed = in_brackets(at, node, number, env, names, seen, depth)?;
    let ty = annotated(at, &typed, first_operand(node, number, 3), env, depth)?;
    at.note_type(number, env, ty)?;
    Ok(ty)
}

/// The type of the pattern in parentheses, which is the written one where one is written.
fn annotated(
    at: &mut Parts,
    typed: &[TypedPart<'_>],
    written: Option<Operand<'_>>,
    env: &Env,
    depth: Depth,
) -> Result<NodeRef, NoMemory>
    ensures first { IfOk result (λ m. written.entry ≡ None → (o : Numbered) (os : List Numbered) → typed_view typed.now ≡ o ∷ os → (slice_get (nodes_of typed.now) 0 ≡ Some m.0) × (at.new ≡ at.old)) }
    ensures carries { IfOk result (λ m. (o : Numbered) (os : List Numbered) → typed_view typed.now ≡ o ∷ os → AsksFirst at.old at.new env.now (option_map operand_view written.entry) o.at (nodes_of typed.now) m.0) }
    ensures goes { Goes at.old at.new }
{
    match typed.split_first() {
        Some((first, _)) => as_written(at, written, first.part, first.ty, env, depth),
        None => at.var(),
    }
}

/// [ p; p ]: each part behind the first has its type
#[cycle(patterns)]
fn list<'a>(
    at: &mut Parts,
    node: &'a Node,
    number: u32,
    env: &Env,
    names: &mut Vec<BoundName<'a>>,
    seen: &mut Mentioned<'a>,
    depth: Depth,
) -> Result<NodeRef, NoMemory>
    ensures carries { IfOk result (λ m. MatchesNodeOf plist_row at.old at.new env.now number (node_view node.now) (binds_of names.old.items) (binds_of names.new.items) (names_seen seen.old.items) (names_seen seen.new.items) m.0) }
    ensures names { OnOk result (Binds names.old.items names.new.items (bound_as plist_row number (node_view node.now))) }
    ensures goes { Goes at.old at.new }
{
    let typed = in_brackets(at, node, number, env, names, seen, depth)?;
    let ty = list_of(at, &typed, env)?;
    at.note_type(number, env, ty)?;
    Ok(ty)
}

/// The list of some parts, which all have the type of the first.
fn list_of(at: &mut Parts, typed: &[TypedPart<'_>], env: &Env) -> Result<NodeRef, NoMemory>
    ensures carries { IfOk result (λ m. EndsPatterns at.old at.new env.now (list_asks (patterns_of at.old.item (typed_view typed.now))) (patterns_of at.old.item (typed_view typed.now)) (nodes_of typed.now) m.0) }
    ensures goes { Goes at.old at.new }
{
    match typed.split_first() {
        Some((first, rest)) => {
            all_equal(at, first.ty, rest, env)?;
            at.list(first.ty)
        }
        None => {
            let element = at.var()?;
            at.list(element)
        }
    }
}

/// The demands that parts have a type.
fn all_equal(
    at: &mut Parts,
    wanted: NodeRef,
    typed: &[TypedPart<'_>],
    env: &Env,
) -> Result<(), NoMemory>
    ensures carries { OnOk result (AsksEach at.old at.new env.now (patterns_of at.old.item (typed_view typed.now)) (nodes_of typed.now) wanted.0) }
    ensures goes { Goes at.old at.new }
{
    for one in typed {
        at.equal(one.part.span, one.ty, wanted, env)?;
    }
    Ok(())
}

/// p :: p: the right part is a list of the left
#[cycle(patterns)]
fn cons<'a>(
    at: &mut Parts,
    node: &'a Node,
    number: u32,
    env: &Env,
    names: &mut Vec<BoundName<'a>>,
    seen: &mut Mentioned<'a>,
    depth: Depth,
) -> Result<NodeRef, NoMemory>
    ensures carries { IfOk result (λ m. MatchesNodeOf pcons_row at.old at.new env.now number (node_view node.now) (binds_of names.old.items) (binds_of names.new.items) (names_seen seen.old.items) (names_seen seen.new.items) m.0) }
    ensures names { OnOk result (Binds names.old.items names.new.items (bound_as pcons_row number (node_view node.now))) }
    ensures goes { Goes at.old at.new }
{
    let typed = in_row(at, node, number, env, names, seen, depth)?;
    let ty = cons_of(at, &typed, env)?;
    at.note_type(number, env, ty)?;
    Ok(ty)
}

/// The list of two parts.
fn cons_of(at: &mut Parts, typed: &[TypedPart<'_>], env: &Env) -> Result<NodeRef, NoMemory>
    ensures carries { IfOk result (λ m. (o p : Numbered) → typed_view typed.now ≡ o ∷ p ∷ [] → EndsPatterns at.old at.new env.now (cons_asks (pattern_of at.old.item o) (pattern_of at.old.item p)) (pattern_of at.old.item o ∷ pattern_of at.old.item p ∷ []) (nodes_of typed.now) m.0) }
    ensures goes { Goes at.old at.new }
{
    let [left, right] = typed else {
        return at.var();
    };
    let whole = at.list(left.ty)?;
    at.equal(right.part.span, right.ty, whole, env)?;
    Ok(whole)
}

/// p, p
#[cycle(patterns)]
fn tuple<'a>(
    at: &mut Parts,
    node: &'a Node,
    number: u32,
    env: &Env,
    names: &mut Vec<BoundName<'a>>,
    seen: &mut Mentioned<'a>,
    depth: Depth,
) -> Result<NodeRef, NoMemory>
    ensures carries { IfOk result (λ m. MatchesNodeOf ptuple_row at.old at.new env.now number (node_view node.now) (binds_of names.old.items) (binds_of names.new.items) (names_seen seen.old.items) (names_seen seen.new.items) m.0) }
    ensures names { OnOk result (Binds names.old.items names.new.items (bound_as ptuple_row number (node_view node.now))) }
    ensures goes { Goes at.old at.new }
{
    let typed = in_row(at, node, number, env, names, seen, depth)?;
    let types = types_of(at.alloc(), &typed)?;
    let ty = at.tuple(&types)?;
    at.note_type(number, env, ty)?;
    Ok(ty)
}

fn types_of(alloc: Global, typed: &[TypedPart<'_>]) -> Result<Vec<NodeRef>, NoMemory>
    ensures { IfOk result (λ ns. numbers ns.items ≡ nodes_of typed.now) }
{
    let mut types = Vec::new(alloc);
    for one in typed {
        push(&mut types, one.ty)?;
    }
    Ok(types)
}

/// A p: the constructor with its argument; the result, which the constructor has too
#[cycle(patterns)]
fn applied<'a>(
    at: &mut Parts,
    node: &'a Node,
    number: u32,
    env: &Env,
    names: &mut Vec<BoundName<'a>>,
    seen: &mut Mentioned<'a>,
    depth: Depth,
) -> Result<NodeRef, NoMemory>
    ensures carries { IfOk result (λ m. MatchesNodeOf papp_row at.old at.new env.now number (node_view node.now) (binds_of names.old.items) (binds_of names.new.items) (names_seen seen.old.items) (names_seen seen.new.items) m.0) }
    ensures names { OnOk result (Binds names.old.items names.new.items (bound_as papp_row number (node_view node.now))) }
    ensures goes { Goes at.old at.new }
{
    let head = operand_in(node, number, 0);
    let argument = operand_in(node, number, 1);
    let ty = construction(at, head, argument, env, names, seen, depth)?;
    at.note_type(number, env, ty)?;
    Ok(ty)
}

/// A head with its argument. The grammar gives a constructor; after anything else the argument is matched alone, the whole has any
/// type, and the head isn't recorded.
#[cycle(patterns)]
fn construction<'a>(
    at: &mut Parts,
    head: Operand<'a>,
    argument: Operand<'a>,
    env: &Env,
    names: &mut Vec<BoundName<'a>>,
    seen: &mut Mentioned<'a>,
    depth: Depth,
) -> Result<NodeRef, NoMemory>
    ensures carries { IfOk result (λ m. IsCarriedPattern (operand_view argument.entry) → MatchesApplied at.old at.new env.now (pattern_of at.old.item (operand_view head.entry)) (pattern_of at.old.item (operand_view argument.entry)) (binds_of names.old.items) (binds_of names.new.items) (names_seen seen.old.items) (names_seen seen.new.items) m.0) }
    ensures names { OnOk result (Binds names.old.items names.new.items (pattern_names (operand_view argument.entry))) }
    ensures goes { Goes at.old at.new }
{
    match constructor_path(at, head)? {
        Some(path) => with_argument(at, head.number, &path, argument, env, names, seen, depth),
        None => {
            match_pattern(at, argument, env, names, seen, depth.inside()?)?;
            at.var()
        }
    }
}

/// A constructor with its argument: `bound`, `arity`; the argument, which is the declared one. The constructor is recorded.
#[cycle(patterns)]
fn with_argument<'a>(
    at: &mut Parts,
    number: u32,
    path: &WrittenPath<'_>,
    argument: Operand<'a>,
    env: &Env,
    names: &mut Vec<BoundName<'a>>,
    seen: &mut Mentioned<'a>,
    depth: Depth,
) -> Result<NodeRef, NoMemory>
    ensures carries { IfOk result (λ m. IsCarriedPattern (operand_view argument.entry) → AppliesConstructor at.old at.new env.now (number_of at.old.item number) (path_as (path_view path.now)) (pattern_of at.old.item (operand_view argument.entry)) (binds_of names.old.items) (binds_of names.new.items) (names_seen seen.old.items) (names_seen seen.new.items) m.0) }
    ensures names { OnOk result (Binds names.old.items names.new.items (pattern_names (operand_view argument.entry))) }
    ensures goes { Goes at.old at.new }
{
    let found = constructor(at, env, path, 1)?;
    match_wanted(
        at,
        argument,
        found.argument,
        env,
        names,
        seen,
        depth.inside()?,
    )?;
    at.note(number, env, Some(found.built), found.names)?;
    Ok(found.built)
}

/// A pattern, and the demand that it has the wanted type, where one is wanted.
#[cycle(patterns)]
fn match_wanted<'a>(
    at: &mut Parts,
    p: Operand<'a>,
    wanted: Option<NodeRef>,
    env: &Env,
    names: &mut Vec<BoundName<'a>>,
    seen: &mut Mentioned<'a>,
    depth: Depth,
) -> Result<(), NoMemory>
    ensures carries { OnOk result (IsCarriedPattern (operand_view p.entry) → MatchesWanted at.old at.new env.now (pattern_of at.old.item (operand_view p.entry)) (binds_of names.old.items) (binds_of names.new.items) (names_seen seen.old.items) (names_seen seen.new.items) (option_map (λ w. w.0) wanted)) }
    ensures names { OnOk result (Binds names.old.items names.new.items (pattern_names (operand_view p.entry))) }
    ensures goes { Goes at.old at.new }
{
    let found = match_pattern(at, p, env, names, seen, depth)?;
    equal_if(at, p.span, found, wanted, env)
}

/// The path of an operand that is a constructor alone; None where it is none.
#[tactic(auto, unfolding(syntax_tree::specs::Names::row_of))]
fn constructor_path<'a>(at: &Parts, p: Operand<'a>) -> Result<Option<WrittenPath<'a>>, NoMemory>
    ensures { IfOk result (λ r. option_map path_view r ≡ constructor_at (operand_view p.entry).part) }
{
    let Some(node) = p.node else {
        return Ok(None);
    };
    match node.row {
        RowName::Pcon => Ok(Some(written_path(at.alloc(), node, 0, 1)?)),
        _ => Ok(None),
    }
}

/// p | p: its sides bind the same names with the same types; it binds those of the first
#[cycle(patterns)]
fn alternatives<'a>(
    at: &mut Parts,
    node: &'a Node,
    number: u32,
    env: &Env,
    names: &mut Vec<BoundName<'a>>,
    seen: &mut Mentioned<'a>,
    depth: Depth,
) -> Result<NodeRef, NoMemory>
    ensures carries { IfOk result (λ m. MatchesNodeOf por_row at.old at.new env.now number (node_view node.now) (binds_of names.old.items) (binds_of names.new.items) (names_seen seen.old.items) (names_seen seen.new.items) m.0) }
    ensures names { OnOk result (Binds names.old.items names.new.items (bound_as por_row number (node_view node.now))) }
    ensures goes { Goes at.old at.new }
{
    let sides = sides_in(at, node, number, env, seen, depth)?;
    compare_sides(at, &sides, env)?;
    let first = first_side(at, sides, names)?;
    at.note_type(number, env, first)?;
    Ok(first)
}

/// The sides of an or-pattern, each with its own names.
#[cycle(patterns)]
fn sides_in<'a>(
    at: &mut Parts,
    node: &'a Node,
    number: u32,
    env: &Env,
    seen: &mut Mentioned<'a>,
    depth: Depth,
) -> Result<Vec<SideMatch<'a>>, NoMemory>
    ensures carries { IfOk result (λ ss. MatchesBeside at.old at.new env.now (all_operands number (node_view node.now)) (names_seen seen.old.items) (names_seen seen.new.items) (map side_of ss.items)) }
    ensures parts { IfOk result (λ ss. parts_of_sides ss.items ≡ all_operands number (node_view node.now)) }
    ensures sides { IfOk result (λ ss. map side_view ss.items ≡ sides_of (all_operands number (node_view node.now)) (in_slots (parts_of_pattern number (node_view node.now)))) }
    ensures goes { Goes at.old at.new }
{
    let parts = operands_of(at.alloc(), node, number)?;
    match_sides(at, &parts, env, seen, depth)
}

/// The sides of an or-pattern; a name of one of them doesn't count against those of another.
#[cycle(patterns)]
fn match_sides<'a>(
    at: &mut Parts,
    parts: &[Operand<'a>],
    env: &Env,
    seen: &mut Mentioned<'a>,
    depth: Depth,
) -> Result<Vec<SideMatch<'a>>, NoMemory>
    ensures carries { IfOk result (λ ss. MatchesBeside at.old at.new env.now (map operand_view parts.now) (names_seen seen.old.items) (names_seen seen.new.items) (map side_of ss.items)) }
    ensures parts { IfOk result (λ ss. parts_of_sides ss.items ≡ map operand_view parts.now) }
    ensures sides { IfOk result (λ ss. map side_view ss.items ≡ map side_at (map operand_view parts.now)) }
    ensures goes { Goes at.old at.new }
{
    let before = seen.len();
    let mut all = Mentioned::new(at.alloc());
    let mut sides = Vec::new(at.alloc());
    for part in parts {
        let side = match_side(at, *part, env, seen, depth.inside()?)?;
        seen.keep_apart(before, &mut all)?;
        push(&mut sides, side)?;
    }
    seen.append(&all)?;
    Ok(sides)
}

/// A side of an or-pattern.
#[cycle(patterns)]
fn match_side<'a>(
    at: &mut Parts,
    part: Operand<'a>,
    env: &Env,
    seen: &mut Mentioned<'a>,
    depth: Depth,
) -> Result<SideMatch<'a>, NoMemory>
    ensures carries { IfOk result (λ s. MatchesOperand at.old at.new env.now (operand_view part.entry) [] (binds_of s.names.items) (names_seen seen.old.items) (names_seen seen.new.items) s.ty.0) }
    ensures part { IfOk result (λ s. s.part ≡ part.entry) }
    ensures side { IfOk result (λ s. side_view s ≡ side_at (operand_view part.entry)) }
    ensures goes { Goes at.old at.new }
{
    let mut names = Vec::new(at.alloc());
    let ty = match_pattern(at, part, env, &mut names, seen, depth)?;
    Ok(SideMatch { part, ty, names })
}

/// The type of the first of some sides, whose names are bound; where there is none, any type.
fn first_side<'a>(
    at: &mut Parts,
    sides: Vec<SideMatch<'a>>,
    names: &mut Vec<BoundName<'a>>,
) -> Result<NodeRef, NoMemory>
    ensures first { IfOk result (λ m. (x : Side) (xs : List Side) → map side_of sides.entry.items ≡ x ∷ xs → (x.node ≡ m.0) × (binds_of names.new.items ≡ binds_of names.old.items ++ x.names) × (at.new ≡ at.old)) }
    ensures silent { Silent at.old at.new }
    ensures names { OnOk result (Binds names.old.items names.new.items (names_of_first (map side_view sides.entry.items))) }
    ensures goes { Goes at.old at.new }
{
    match sides.into_iter().next() {
        Some(first) => {
            append(names, first.names)?;
            Ok(first.ty)
        }
        None => at.var(),
    }
}

/// Puts items behind others.
fn append<T: Drop>(list: &mut Vec<T>, more: Vec<T>) -> Result<(), NoMemory>
    ensures { OnOk result (list.new.items ≡ list.old.items ++ more.items) }
{
    for item in more {
        push(list, item)?;
    }
    Ok(())
}

/// The demands of each later side beside the first.
fn compare_sides(at: &mut Parts, sides: &[SideMatch<'_>], env: &Env) -> Result<(), NoMemory>
    ensures carries { OnOk result ((i : ℕ) (x : Side) (xs : List Side) (o : Numbered) (os : List Numbered) → map side_of sides.now ≡ x ∷ xs → parts_of_sides sides.now ≡ o ∷ os → AsksLater at.old at.new env.now x xs (patterns_of i os)) }
    ensures goes { Goes at.old at.new }
{
    match sides.split_first() {
        Some((first, rest)) => compare_later(at, first, rest, env),
        None => Ok(()),
    }
}

/// The demands of later sides.
fn compare_later(
    at: &mut Parts,
    first: &SideMatch<'_>,
    sides: &[SideMatch<'_>],
    env: &Env,
) -> Result<(), NoMemory>
    ensures carries { OnOk result ((i : ℕ) → AsksLater at.old at.new env.now (side_of first.now) (map side_of sides.now) (patterns_of i (parts_of_sides sides.now))) }
    ensures goes { Goes at.old at.new }
{
    for side in sides {
        compare_side(at, first, side, env)?;
    }
    Ok(())
}

/// The demands of a later side: it has the names of the first, with their types, and its type.
fn compare_side(
    at: &mut Parts,
    first: &SideMatch<'_>,
    side: &SideMatch<'_>,
    env: &Env,
) -> Result<(), NoMemory>
    ensures carries { OnOk result (AsksBeside at.old at.new env.now (side_of first.now) (side_of side.now) (place_of side.now.part.span)) }
    ensures goes { Goes at.old at.new }
{
    ask_sides(at, first, side)?;
    compare_names(at, &first.names, &side.names, env)?;
    at.equal(side.part.span, side.ty, first.ty, env)?;
    Ok(())
}

/// The demand that no name stands on one of two sides alone.
fn ask_sides(at: &mut Parts, first: &SideMatch<'_>, side: &SideMatch<'_>) -> Result<(), NoMemory>
    ensures carries { OnOk result (AsksSides at.old at.new (place_of side.now.part.span) (binds_of first.now.names.items) (binds_of side.now.names.items)) }
    ensures goes { Goes at.old at.new }
{
    match name_apart(&first.names, &side.names) {
        Some(name) => at.one_side(side.part.span, name.name.as_str()),
        None => Ok(()),
    }
}

fn find<'a, 'b>(name: &Token, names: &'b [BoundName<'a>]) -> Option<&'b BoundName<'a>>
    ensures token { option_map (λ b. tok_of b.now.token.now) result ≡ find_name (tok_of name.now).name (tokens_of names.now) }
    ensures found { option_map (λ b. bind_of b.now) result ≡ find_bind (tok_of name.now).name (binds_of names.now) }
{
    for other in names {
        if other.token.name.is(name.name.as_str()) {
            return Some(other);
        }
    }
    None
}

/// The first name of some that isn't among others.
fn first_apart<'a>(names: &[BoundName<'a>], others: &[BoundName<'_>]) -> Option<&'a Token>
    ensures { option_map (λ t. (tok_of t.now).name) result ≡ first_apart_here (binds_of names.now) (binds_of others.now) }
{
    for name in names {
        if find(name.token, others).is_none() {
            return Some(name.token);
        }
    }
    None
}

/// The first name that one of two sides has and the other hasn't, those of the first side before those of the second.
fn name_apart<'a>(first: &[BoundName<'a>], later: &[BoundName<'a>]) -> Option<&'a Token>
    ensures { option_map (λ t. (tok_of t.now).name) result ≡ name_apart_here (binds_of first.now) (binds_of later.now) }
{
    match first_apart(first, later) {
        Some(name) => Some(name),
        None => first_apart(later, first),
    }
}

/// Each common name has on the later side the type that it has on the first.
fn compare_names(
    at: &mut Parts,
    first: &[BoundName<'_>],
    later: &[BoundName<'_>],
    env: &Env,
) -> Result<(), NoMemory>
    ensures carries { OnOk result (AsksNames at.old at.new env.now (binds_of first.now) (binds_of later.now)) }
    ensures goes { Goes at.old at.new }
{
    for name in first {
        compare_name(at, name, later, env)?;
    }
    Ok(())
}

/// A name of the first side has on the later one, where it is there, the same type.
fn compare_name(
    at: &mut Parts,
    name: &BoundName<'_>,
    later: &[BoundName<'_>],
    env: &Env,
) -> Result<(), NoMemory>
    ensures carries { OnOk result (AsksName at.old at.new env.now (bind_of name.now) (binds_of later.now)) }
    ensures goes { Goes at.old at.new }
{
    if let Some(other) = find(name.token, later) {
        at.equal(other.token.span, other.node, name.node, env)?;
    }
    Ok(())
}

/// { l = p }: the type by its labels, the fields, and the record
#[cycle(patterns)]
fn record<'a>(
    at: &mut Parts,
    node: &'a Node,
    number: u32,
    env: &Env,
    names: &mut Vec<BoundName<'a>>,
    seen: &mut Mentioned<'a>,
    depth: Depth,
) -> Result<NodeRef, NoMemory>
    ensures carries { IfOk result (λ m. MatchesNodeOf precord_row at.old at.new env.now number (node_view node.now) (binds_of names.old.items) (binds_of names.new.items) (names_seen seen.old.items) (names_seen seen.new.items) m.0) }
    ensures names { OnOk result (Binds names.old.items names.new.items (bound_as precord_row number (node_view node.now))) }
    ensures goes { Goes at.old at.new }
{
    let fields = operands(at.alloc(), node, number, 1)?;
    let ty = match_record(at, &fields, env, names, seen, depth)?;
    at.note_type(number, env, ty)?;
    Ok(ty)
}

/// A record pattern with these fields. Those that are missing are recorded.
#[cycle(patterns)]
fn match_record<'a>(
    at: &mut Parts,
    fields: &[Operand<'a>],
    env: &Env,
    names: &mut Vec<BoundName<'a>>,
    seen: &mut Mentioned<'a>,
    depth: Depth,
) -> Result<NodeRef, NoMemory>
    ensures carries { IfOk result (λ m. All IsCarriedField (map operand_view fields.now) → MatchesRecord at.old at.new env.now (fields_of at.old.item (map operand_view fields.now)) (binds_of names.old.items) (binds_of names.new.items) (names_seen seen.old.items) (names_seen seen.new.items) m.0) }
    ensures names { OnOk result (Binds names.old.items names.new.items (names_in field_pattern_names (map operand_view fields.now))) }
    ensures goes { Goes at.old at.new }
{
    note_missing(at, fields, env)?;
    let found = record_of_fields(at, env, fields)?;
    let ty = type_or_var(at, found.ty())?;
    match_fields(at, env, found, fields, names, seen, depth)?;
    Ok(ty)
}

/// The fields of a record pattern, one after the other.
#[cycle(patterns)]
fn match_fields<'a>(
    at: &mut Parts,
    env: &Env,
    found: RecordType,
    fields: &[Operand<'a>],
    names: &mut Vec<BoundName<'a>>,
    seen: &mut Mentioned<'a>,
    depth: Depth,
) -> Result<(), NoMemory>
    ensures carries { OnOk result (All IsCarriedField (map operand_view fields.now) → FieldsInOrder at.old at.new env.now (here_of found) (fields_of at.old.item (map operand_view fields.now)) (binds_of names.old.items) (binds_of names.new.items) (names_seen seen.old.items) (names_seen seen.new.items)) }
    ensures names { OnOk result (Binds names.old.items names.new.items (names_in field_pattern_names (map operand_view fields.now))) }
    ensures goes { Goes at.old at.new }
{
    let mut begun = Fields {
        found,
        labels: Mentioned::new(at.alloc()),
    };
    for field in fields {
        match_field(at, env, &mut begun, *field, names, seen, depth)?;
    }
    Ok(())
}

/// A field, if it is there.
#[cycle(patterns)]
fn match_field<'a>(
    at: &mut Parts,
    env: &Env,
    begun: &mut Fields<'a>,
    field: Operand<'a>,
    names: &mut Vec<BoundName<'a>>,
    seen: &mut Mentioned<'a>,
    depth: Depth,
) -> Result<(), NoMemory>
    ensures carries { OnOk result (MatchesFieldPart at.old at.new env.now (here_of begun.old.found) field.entry.number (operand_view field.entry).part (binds_of names.old.items) (binds_of names.new.items) (names_seen seen.old.items) (names_seen seen.new.items) (names_seen begun.old.labels.items) (names_seen begun.new.labels.items)) }
    ensures found { OnOk result (here_of begun.new.found ≡ here_of begun.old.found) }
    ensures names { OnOk result (Binds names.old.items names.new.items (field_pattern_names (operand_view field.entry))) }
    ensures goes { Goes at.old at.new }
{
    let Some(node) = field.node else {
        return Ok(());
    };
    match first_operand(node, field.number, 3) {
        Some(part) => match_written(at, env, begun, field, part, names, seen, depth),
        None => pun(at, env, begun, field, names, seen),
    }
}

/// l = p: the pattern is the field
#[cycle(patterns)]
fn match_written<'a>(
    at: &mut Parts,
    env: &Env,
    begun: &mut Fields<'a>,
    field: Operand<'a>,
    part: Operand<'a>,
    names: &mut Vec<BoundName<'a>>,
    seen: &mut Mentioned<'a>,
    depth: Depth,
) -> Result<(), NoMemory>
    ensures carries { OnOk result (MatchesWritten at.old at.new env.now (number_of at.old.item field.entry.number) (here_of begun.old.found) (path_as (path_at (operand_view field.entry).part)) (operand_view part.entry) (binds_of names.old.items) (binds_of names.new.items) (names_seen seen.old.items) (names_seen seen.new.items) (names_seen begun.old.labels.items) (names_seen begun.new.labels.items)) }
    ensures found { OnOk result (here_of begun.new.found ≡ here_of begun.old.found) }
    ensures names { OnOk result (Binds names.old.items names.new.items (pattern_names (operand_view part.entry))) }
    ensures goes { Goes at.old at.new }
{
    let label = written_at(at, field)?;
    let wanted = begin_field(at, begun, &label)?;
    note_label(at, field.number, env, &begun.found, &label)?;
    match_wanted(at, part, wanted, env, names, seen, depth.inside()?)
}

/// A field without a pattern of its own binds the name of its label, with the type of the field. It is recorded with that.
fn pun<'a>(
    at: &mut Parts,
    env: &Env,
    begun: &mut Fields<'a>,
    field: Operand<'a>,
    names: &mut Vec<BoundName<'a>>,
    seen: &mut Mentioned<'a>,
) -> Result<(), NoMemory>
    ensures carries { OnOk result (PunsWritten at.old at.new env.now (number_of at.old.item field.entry.number) (here_of begun.old.found) (path_as (path_at (operand_view field.entry).part)) (binds_of names.old.items) (binds_of names.new.items) (names_seen seen.old.items) (names_seen seen.new.items) (names_seen begun.old.labels.items) (names_seen begun.new.labels.items)) }
    ensures found { OnOk result (here_of begun.new.found ≡ here_of begun.old.found) }
    ensures names { OnOk result (Binds names.old.items names.new.items (name_of (path_at (operand_view field.entry).part).last)) }
    ensures goes { Goes at.old at.new }
{
    let label = written_at(at, field)?;
    let wanted = begin_field(at, begun, &label)?;
    pun_of(
        at,
        env,
        &begun.found,
        &label,
        wanted,
        field.number,
        names,
        seen,
    )
}

/// The same behind the demand on the label.
fn pun_of<'a>(
    at: &mut Parts,
    env: &Env,
    found: &RecordType,
    label: &WrittenPath<'a>,
    wanted: Option<NodeRef>,
    number: u32,
    names: &mut Vec<BoundName<'a>>,
    seen: &mut Mentioned<'a>,
) -> Result<(), NoMemory>
    ensures puns { OnOk result (Puns (path_view label.now).last at.old at.new env.now (number_of at.old.item number) (option_map (λ n. n.0) wanted) (binds_of names.old.items) (binds_of names.new.items) (names_seen seen.old.items) (names_seen seen.new.items)) }
    ensures names { OnOk result (Binds names.old.items names.new.items (name_of (path_view label.now).last)) }
    ensures goes { Goes at.old at.new }
{
    match label.last {
        Some(token) => {
            let ty = type_or_var(at, wanted)?;
            bind_label(at, env, label, token, ty, number, names, seen)
        }
        None => note_label(at, number, env, found, label),
    }
}

/// Binds the name of a label; the field is recorded with it.
fn bind_label<'a>(
    at: &mut Parts,
    env: &Env,
    label: &WrittenPath<'a>,
    token: &'a Token,
    ty: NodeRef,
    number: u32,
    names: &mut Vec<BoundName<'a>>,
    seen: &mut Mentioned<'a>,
) -> Result<(), NoMemory>
    ensures binds { OnOk result (BindsLabel at.old at.new env.now (number_of at.old.item number) (tok_of token.now) ty (binds_of names.old.items) (binds_of names.new.items) (names_seen seen.old.items) (names_seen seen.new.items)) }
    ensures tells { OnOk result (TellsName (toks_of seen.old.items) (tok_of token.now) at.old at.new) }
    ensures seen { OnOk result (toks_of seen.new.items ≡ toks_of seen.old.items ++ tok_of token.now ∷ []) }
    ensures names { OnOk result (Binds names.old.items names.new.items (tok_of token.now ∷ [])) }
    ensures recorded { OnOk result (IsRecorded at.new number) }
    ensures goes { Goes at.old at.new }
{
    is_new(at, seen, token)?;
    let bound = bound_name(at, token, ty)?;
    let entry = share_entry(&bound.entry)?;
    let seen_names = at.seen_names(env, label, Some(&entry))?;
    at.note(number, env, None, seen_names)?;
    push(names, bound)
}
