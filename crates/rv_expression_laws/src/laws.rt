//! Laws of the words of a source, each the contract of a function with nothing to do.

ghost use Rattle.std.specs.Prelude.{◌≡◌, ℕ, ◌≤◌, Bool, true, List, [], ◌∷◌, ◌++◌, Some};
ghost use Rattle.rv_expression_laws.specs.Grammar.{Kind, Spells, Stops};
ghost use Rattle.rv_expression_laws.specs.Lexing.{Token, Lexes, is_ended};
ghost use Rattle.rv_expression_laws.specs.Spans.{Spans};
ghost use Rattle.rv_expression_laws.specs.SyntaxError.{SyntaxError, wrong};
ghost use Rattle.rv_expression_laws.specs.Front.{tokens_from};
ghost use Rattle.rv_expression_laws.specs.Expression.{Primary, Tree, Node, IsAt, nesting, deepest, postfix, SpellsTree, ReadsTree, tree_of, bare};
ghost use Rattle.rv_expression_laws.specs.Values.{Meaning, Value, value_of, after_nodes, nodes_fit};
ghost use Rattle.rv_expression_laws.specs.Joined.{ReadsJoined, joined_at};
ghost use Rattle.rv_expression_laws.specs.ExpressionAt.{Stage, Wants, after_tokens, expression_at, EndsAt};
ghost use Rattle.rv_expression_laws.specs.ExpressionFault.{Begins, FailsAt};

/// At most one lexeme stands at the front of bytes, and it has one kind.
pub fn one_lexeme()
    ensures { (j k : Kind) (text other rest after : List ℕ) → Spells j text → Stops j rest →
        Spells k other → Stops k after
        → text ++ rest ≡ other ++ after → (j ≡ k) × (text ≡ other) }
{}

/// A source has at most one list of tokens.
pub fn one_list()
    ensures { (bytes : List ℕ) (ts us : List Token) → Lexes bytes ts → Lexes bytes us → ts ≡ us }
{}

/// Every source has a list of tokens.
pub fn some_list()
    ensures { (bytes : List ℕ) → Lexes bytes (tokens_from 0 1 bytes) }
{}

/// The tokens of every source, a bad one too, stand one after the other in it, with blanks and comments alone outside.
pub fn spans()
    ensures { (bytes : List ℕ) (ts : List Token) → Lexes bytes ts → Spans 0 bytes ts }
{}

/// What spells an expression is read as it.
pub fn expression_is()
    ensures { (is_register : List ℕ → Bool) (ts : List Token) (tree : Tree) (rest : List Token) →
        ReadsTree is_register ts tree rest
        → expression_at is_register ts ≡ Ok (postfix tree, rest) }
{}

/// What is read is an expression.
pub fn expression_found()
    ensures { (is_register : List ℕ → Bool) (ts : List Token) (nodes : List Node)
        (rest : List Token) → expression_at is_register ts ≡ Ok (nodes, rest)
        → (tree : Tree) × ReadsTree is_register ts tree rest × (nodes ≡ postfix tree) }
{}

/// The nodes of an expression, one after the other, leave its value.
pub fn postfix_value()
    ensures { (meanings : Primary → Meaning) (tree : Tree) →
        after_nodes meanings (postfix tree) [] ≡ value_of meanings tree ∷ [] }
{}

/// Few values wait at a time in an expression that is read.
pub fn postfix_fits()
    ensures { (tree : Tree) → IsAt 0 tree → nesting tree ≤ deepest →
        nodes_fit (postfix tree) 0 ≡ true }
{}

/// The nodes of an expression stand for it, without its parentheses.
pub fn postfix_tree()
    ensures { (tree : Tree) → tree_of (postfix tree) ≡ bare tree }
{}

/// Parentheses have no value of their own.
pub fn bare_value()
    ensures { (meanings : Primary → Meaning) (tree : Tree) →
        value_of meanings (bare tree) ≡ value_of meanings tree }
{}

/// Nodes that fit leave the value of the expression that they stand for.
pub fn nodes_value()
    ensures { (meanings : Primary → Meaning) (nodes : List Node) → nodes_fit nodes 0 ≡ true
        → (others : List Value)
        × (after_nodes meanings nodes [] ≡ value_of meanings (tree_of nodes) ∷ others) }
{}

/// A reading takes the tokens that an expression begins with, and no others.
pub fn taken_begins()
    ensures goes_on { (is_register : List ℕ → Bool) (front : List Token) (stage : Stage) →
        after_tokens is_register (Wants [] []) front ≡ Some stage → Begins is_register front }
    ensures taken { (is_register : List ℕ → Bool) (front : List Token) → Begins is_register front
        → (stage : Stage) × (after_tokens is_register (Wants [] []) front ≡ Some stage) }
{}

/// A reading names the first token with which no expression goes on, and the code of its fault.
pub fn wrong_token()
    ensures is { (is_register : List ℕ → Bool) (front : List Token) (at : Token) (code : ℕ)
        (more : List Token) → FailsAt is_register front at code
        → expression_at is_register (front ++ at ∷ more) ≡ Err (wrong at code) }
    ensures found { (is_register : List ℕ → Bool) (ts : List Token) (w : SyntaxError) →
        is_ended ts ≡ true → expression_at is_register ts ≡ Err w
        → (front : List Token) × (at : Token) × (more : List Token) × (code : ℕ)
        × (ts ≡ front ++ at ∷ more) × FailsAt is_register front at code × (w ≡ wrong at code) }
    ensures stops { (is_register : List ℕ → Bool) (front : List Token) (at : Token) (code : ℕ)
        (more : List Token) → FailsAt is_register front at code
        → (tree : Tree) → SpellsTree is_register tree (front ++ at ∷ more) → IsAt 0 tree →
        nesting tree ≤ deepest → ⊥ }
{}

/// A reading ends after the tokens of an expression, whatever it is that stands after the token that ends it.
pub fn expression_end()
    ensures is { (is_register : List ℕ → Bool) (front : List Token) (at : Token)
        (nodes : List Node) (more : List Token) → EndsAt is_register front at nodes
        → expression_at is_register (front ++ at ∷ more) ≡ Ok (nodes, at ∷ more) }
    ensures found { (is_register : List ℕ → Bool) (ts : List Token) (nodes : List Node)
        (rest : List Token) → expression_at is_register ts ≡ Ok (nodes, rest)
        → (front : List Token) × (at : Token) × (more : List Token) × (ts ≡ front ++ at ∷ more)
        × (rest ≡ at ∷ more) × EndsAt is_register front at nodes }
    ensures whole { (is_register : List ℕ → Bool) (front : List Token) (at : Token)
        (nodes : List Node) → EndsAt is_register front at nodes
        → (tree : Tree) × SpellsTree is_register tree front × IsAt 0 tree
        × (nesting tree ≤ deepest) × (nodes ≡ postfix tree) }
{}

/// A name with minus signs at the front of tokens, which goes as far as it can, is what the function answers.
pub fn joined_name()
    ensures is { (ts : List Token) (name : List ℕ) (rest : List Token) → ReadsJoined ts name rest →
        joined_at ts ≡ Some (name, rest) }
    ensures found { (ts : List Token) (name : List ℕ) (rest : List Token) →
        joined_at ts ≡ Some (name, rest) → ReadsJoined ts name rest }
{}
