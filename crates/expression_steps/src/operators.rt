//! Operators as the values that they name, and a minus over a numeral.
#![tactic(auto, using(typing_state::proofs::Going::goes_trans, typing_state::proofs::Going::goes_refl), unfolding(syntax_tree::specs::Names::row_of))]

ghost use Rattle.std.specs.Prelude.{◌≡◌, ℕ, true, [], option_map, Some, None, IfOk, IfSome, OnOk};
ghost use Rattle.typing_model.specs.Expressions.{value_asks};
ghost use Rattle.typing_conditions.specs.Steps.{Records};
ghost use Rattle.typing_steps.specs.States.{is_aloud, sight};
ghost use Rattle.typing_steps.specs.Typing.{TypesOwn};
ghost use Rattle.expression_steps.specs.Operators.{sign_in, IsOperator, IsSignOf};
ghost use Rattle.syntax_tree.specs.Names.{row_of};
ghost use Rattle.syntax_tree.specs.View.{tok_of, node_view};
ghost use Rattle.row_parts.specs.Numbered.{operand_view};
ghost use Rattle.typing_state.specs.Goes.{Goes};
ghost use Rattle.env_table.specs.declared.entries.Kind.{Kind};
ghost use Rattle.use_typing.specs.Uses.{TellsBound};
ghost use Rattle.expression_steps.specs.Heads.{is_float_at, is_float_token};
ghost use Rattle.value_forms.specs.Heads.{row_at};

use row_parts::{Operand, WrittenPath, token};
use syntax_tree::{Node, RcStr, RowName, Token, TokenKind};
use typing_state::{Env, NoMemory, Parts};
use use_typing::{Names, Sign, Used, unnamed, value};

/// An operator as the name of a value, and what it puts directly in front of its argument.
#[derive(Drop)]
pub struct Operator {
    pub named: Token,
    pub sign: Sign,
}

/// The token of the operator of a row.
fn sign_of(node: &Node) -> Option<&Token>
    ensures token { option_map (λ t. tok_of t.now) result ≡ sign_in (row_at (node_view node.now)) (node_view node.now) }
{
    match node.row {
        RowName::Infix => token(node, 1),
        _ => token(node, 0),
    }
}

/// The operator of a row; None where it is missing.
pub fn operator_of(at: &Parts, node: &Node) -> Result<Option<Operator>, NoMemory>
    ensures none { IfOk result (λ o. o ≡ None → sign_in (row_at (node_view node.now)) (node_view node.now) ≡ None) }
    ensures some { IfOk result (λ o. IfSome o (λ x. IsSignOf (row_at (node_view node.now)) (sign_in (row_at (node_view node.now)) (node_view node.now)) x)) }
{
    match sign_of(node) {
        Some(token) => Ok(Some(operator_by(at, node.row, token)?)),
        None => Ok(None),
    }
}

/// The operator by its token. Over an argument alone - is ~-, and -. is ~-.
fn operator_by(at: &Parts, row: RowName, token: &Token) -> Result<Operator, NoMemory>
    ensures operator { IfOk result (λ o. IsOperator (row_of row) (tok_of token.now) o) }
{
    let (name, sign) = match row {
        RowName::Eneg if token.name.is("-.") => (RcStr::from_str(at.alloc(), "~-.")?, Sign::None),
        RowName::Eneg => (RcStr::from_str(at.alloc(), "~-")?, Sign::Minus),
        _ => (token.name.share()?, Sign::None),
    };
    let named = Token {
        kind: TokenKind::OpName,
        span: token.span,
        reach: token.reach,
        col: token.col,
        name,
    };
    Ok(Operator { named, sign })
}

/// `bound` of an operator.
pub fn operator_value(at: &mut Parts, operator: &Token, env: &Env) -> Result<Used, NoMemory>
    ensures carries { IfOk result (λ u. (n k : ℕ) → TypesOwn at.old at.new env.now (λ c t. value_asks c n k (record { qualifiers = []; last = Some (tok_of operator.now) }) t) u.ty.0) }
    ensures tells { OnOk result (TellsBound (record { qualifiers = []; last = Some (tok_of operator.now) }) Kind.Value at.old at.new env.now) }
    ensures goes { Goes at.old at.new }
{
    let path = WrittenPath {
        qualifiers: Vec::new(at.alloc()),
        last: Some(operator),
    };
    value(at, env, &path)
}

/// Whether an expression is a numeral with a point.
pub fn is_float(e: Operand<'_>) -> bool
    ensures { result ≡ is_float_at (operand_view e.entry).part }
{
    let Some(node) = e.node else {
        return false;
    };
    match node.row {
        RowName::Econst => is_point(token(node, 0)),
        _ => false,
    }
}

/// Whether a token is a numeral with a point.
#[tactic(auto, unfolding(syntax_tree::specs::Names::kind_of))]
fn is_point(token: Option<&Token>) -> bool
    ensures { result ≡ is_float_token (option_map (λ t. tok_of t.now) token.entry) }
{
    match token {
        Some(token) => token.kind == TokenKind::Float,
        None => false,
    }
}

/// A numeral with a point under a minus, by its number.
pub fn negative_float(at: &mut Parts, number: u32, env: &Env) -> Result<Used, NoMemory>
    ensures carries { IfOk result (λ u. is_aloud at.old.telling ≡ true → Records (sight at.old) (sight at.new) number at.old.constants.float.0 env.now) }
    ensures ty { IfOk result (λ u. u.ty ≡ at.old.constants.float) }
    ensures goes { Goes at.old at.new }
{
    let float = at.constants.float;
    at.note_type(number, env, float)?;
    Ok(unnamed(at, float))
}
