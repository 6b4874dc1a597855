//! What the parser's way finds.

ghost use Rattle.std.specs.Prelude.{◌≡◌, ◌≤◌, ℕ, suc, Bool, List, map};
ghost use Rattle.readings.specs.Readings.{longest, optional};
ghost use Rattle.dart_tokens.specs.declared.grouped_token.GroupedToken.{GroupedToken as Token};
ghost use Rattle.grammar.specs.declared.level.Level.{Level};
ghost use Rattle.grammar.specs.declared.level.Setting.{Setting};
ghost use Rattle.dart_tree.specs.Heights.{height, heights};
ghost use Rattle.dart_tree.specs.Tree.{Tree, trees_of};
ghost use Rattle.dart_tree.specs.declared.places.Place.{Place};
ghost use Rattle.unread_lists.specs.WithLists.{with_lists};
ghost use Rattle.grammar.specs.Below.{below};
ghost use Rattle.grammar.specs.Declarations.{unit_below};
ghost use Rattle.grammar.specs.Types.{parameter_list_rule};
ghost use Rattle.grammar.specs.Descents.{lower, take_parameter_list};
ghost use Rattle.grammar.specs.DeclarationDescents.{lower_unit};
ghost use Rattle.grammar.specs.Statements.{segment, error_of};
ghost use Rattle.grammar.specs.Whole.{statements_below, statements_at, tokens_over, most_nodes, whole, unit_of};
ghost use Rattle.readings.specs.Descent.{all_items};
ghost use Rattle.grammar.specs.Rows.{ReadsExpression, ReadsStatement, ReadsUnit, ReadsAsFar, expression_rows, statement_rows, unit_rows, room_rows};
ghost use Rattle.readings.specs.Leading.{Each};

/// A parser that goes down the tokens and never gives a reading up for another finds what the
/// grammar reads: of each type, expression, operand, block, statement and list of parameters, however
/// many nodes may lie on a way down and whatever the tokens are, the first of the longest readings.
/// Lists of statements in them aren't read yet.
pub fn parser_laws()
    ensures written { (room : ℕ) (tokens : List Token) → longest ((below room).written tokens) ≡ (lower room).written tokens }
    ensures tested { (room : ℕ) (setting : Setting) (tokens : List Token) → longest ((below room).tested setting tokens) ≡ (lower room).tested setting tokens }
    ensures constructed { (room : ℕ) (tokens : List Token) → longest ((below room).constructed tokens) ≡ (lower room).constructed tokens }
    ensures named { (room : ℕ) (tokens : List Token) → longest ((below room).named tokens) ≡ (lower room).named tokens }
    ensures expression { (room : ℕ) (setting : Setting) (tokens : List Token)
        → longest ((below room).expression setting tokens) ≡ (lower room).expression setting tokens }
    ensures operand { (room : ℕ) (setting : Setting) (above : List Level) (tokens : List Token)
        → longest ((below room).operand setting above tokens) ≡ (lower room).operand setting above tokens }
    ensures unary { (room : ℕ) (setting : Setting) (tokens : List Token) → longest ((below room).unary setting tokens) ≡ (lower room).unary setting tokens }
    ensures section { (room : ℕ) (setting : Setting) (tokens : List Token)
        → longest ((below room).section setting tokens) ≡ (lower room).section setting tokens }
    ensures simple { (room : ℕ) (tokens : List Token) → longest ((below room).simple tokens) ≡ (lower room).simple tokens }
    ensures block { (room : ℕ) (tokens : List Token) → longest ((below room).block tokens) ≡ (lower room).block tokens }
    ensures statement { (room : ℕ) (tokens : List Token) → longest ((below room).statement tokens) ≡ (lower room).statement tokens }
    ensures parameters { (room : ℕ) (tokens : List Token) → longest (parameter_list_rule (below room) tokens) ≡ take_parameter_list (lower room) tokens }
{}

/// Each type, expression, operand, cascade section, block and statement has one reading at most at
/// its place: so a parser need not try what else might be read there.
pub fn readings_are_single()
    ensures written { (room : ℕ) (tokens : List Token) → (below room).written tokens ≡ optional ((lower room).written tokens) }
    ensures tested { (room : ℕ) (setting : Setting) (tokens : List Token) → (below room).tested setting tokens ≡ optional ((lower room).tested setting tokens) }
    ensures constructed { (room : ℕ) (tokens : List Token) → (below room).constructed tokens ≡ optional ((lower room).constructed tokens) }
    ensures named { (room : ℕ) (tokens : List Token) → (below room).named tokens ≡ optional ((lower room).named tokens) }
    ensures expression { (room : ℕ) (setting : Setting) (tokens : List Token)
        → (below room).expression setting tokens ≡ optional ((lower room).expression setting tokens) }
    ensures operand { (room : ℕ) (setting : Setting) (above : List Level) (tokens : List Token)
        → (below room).operand setting above tokens ≡ optional ((lower room).operand setting above tokens) }
    ensures unary { (room : ℕ) (setting : Setting) (tokens : List Token) → (below room).unary setting tokens ≡ optional ((lower room).unary setting tokens) }
    ensures section { (room : ℕ) (setting : Setting) (tokens : List Token)
        → (below room).section setting tokens ≡ optional ((lower room).section setting tokens) }
    ensures simple { (room : ℕ) (tokens : List Token) → (below room).simple tokens ≡ optional ((lower room).simple tokens) }
    ensures block { (room : ℕ) (tokens : List Token) → (below room).block tokens ≡ optional ((lower room).block tokens) }
    ensures statement { (room : ℕ) (tokens : List Token) → (below room).statement tokens ≡ optional ((lower room).statement tokens) }
{}

/// No tree that is read is higher than its room, and no node of a text lies deeper than 200 below
/// the whole.
pub fn trees_fit_their_room()
    ensures written { (room : ℕ) (tokens : List Token) → Each (λ x. height x.0 ≤ room) ((below room).written tokens) }
    ensures expression { (room : ℕ) (setting : Setting) (tokens : List Token) → Each (λ x. height x.0 ≤ room) ((below room).expression setting tokens) }
    ensures operand { (room : ℕ) (setting : Setting) (above : List Level) (tokens : List Token)
        → Each (λ x. height x.0 ≤ room) ((below room).operand setting above tokens) }
    ensures section { (room : ℕ) (setting : Setting) (tokens : List Token) → Each (λ x. height x.0 ≤ room) ((below room).section setting tokens) }
    ensures block { (room : ℕ) (tokens : List Token) → Each (λ x. height x.0 ≤ room) ((below room).block tokens) }
    ensures statement { (room : ℕ) (tokens : List Token) → Each (λ x. height x.0 ≤ room) ((below room).statement tokens) }
    ensures lists { (depth : ℕ) (text : List Token) (room : ℕ) (at : Place) → heights (statements_at depth text room at) ≤ room }
    ensures whole { (text : List Token) (room : ℕ) (tree : Tree) → height tree ≤ room → height (whole text room tree) ≤ room }
    ensures unit { (in_core : Bool) (tokens : List Token) → height (unit_of in_core tokens) ≤ 201 }
{}

/// The statements of a list are those on the parser's way, and so are those of the lists in them.
pub fn list_laws()
    ensures items { (room : ℕ) (tokens : List Token) → statements_below room tokens ≡ all_items ((lower room).statement) segment error_of tokens }
    ensures lists { (depth : ℕ) (text : List Token) (room : ℕ) (at : Place) → statements_at (suc depth) text room at
        ≡ trees_of (map (with_lists (statements_at depth text) room) (all_items ((lower room).statement) segment error_of (tokens_over text at))) }
{}

/// The tree of a text is the one on the parser's way, however many nodes may lie in its items and in
/// their members.
pub fn unit_laws()
    ensures units { (in_core : Bool) (in_item in_member : ℕ) (tokens : List Token)
        → unit_below in_core (below in_item) (below in_member) tokens ≡ lower_unit in_core (lower in_item) (lower in_member) tokens }
    ensures whole { (in_core : Bool) (tokens : List Token) → unit_of in_core tokens ≡ whole tokens most_nodes (lower_unit in_core (lower 199) (lower 198) tokens) }
{}

/// Small texts are read as the rows beside them say, and as far as there is room for nodes.
pub fn small_texts_are_read()
    ensures expressions { Each ReadsExpression expression_rows }
    ensures statements { Each ReadsStatement statement_rows }
    ensures units { Each ReadsUnit unit_rows }
    ensures room { Each ReadsAsFar room_rows }
{}
