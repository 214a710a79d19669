//! The laws of the readers of expressions of `ada_expr_parser`: what they read is the grammar of ANSI/MIL-STD-1815A 4.4.

ghost use Rattle.ada_parser.specs.expression_laws.Laws.{FindsBehind, FindsExpressions, FindsParts, RefusesBehind, RefusesExpressions, RefusesParts};

/// Carries the laws of expressions. A reader of a level of the grammar, at every depth, finds exactly the expressions of
/// that level, and each text has one tree; it refuses at the first item with which no expression goes on, and as too deep
/// at the first item with which only deeper ones do. The same holds of the readers of ranges, variables, entry calls and
/// choices. The reader that goes on behind a first primary, which has been read already, finds exactly what makes an
/// expression of that primary's items when it is put behind them (nothing, or operators with their operands), and refuses
/// likewise.
pub fn laws()
    ensures finds { FindsExpressions }
    ensures refuses { RefusesExpressions }
    ensures finds_parts { FindsParts }
    ensures refuses_parts { RefusesParts }
    ensures finds_behind { FindsBehind }
    ensures refuses_behind { RefusesBehind }
{}
