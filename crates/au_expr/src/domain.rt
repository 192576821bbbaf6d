//! What the operators of expressions do in a domain of cells.
ghost use Rattle.std.specs.Prelude.{◌≡◌, ◌++◌, IfOk, OkIff};
ghost use Rattle.au_expr.specs.Evaluate.{Operators};
ghost use Rattle.au_expr.specs.Figures.{Figures, Fit};
ghost use Rattle.au_expr.specs.Holding.{WhichWorld};
ghost use Rattle.au_expr.specs.Ordinary.{ordinary};
ghost use Rattle.au_value.specs.Order.{kind_of};
ghost use Rattle.au_value.specs.declared.kinds.Kind.{Kind};
ghost use Rattle.au_value.specs.declared.value.Value.{Value};

use au_value::{Comparison, NoMemory, Overflow, Value};

/// Cells of a domain, and what the operators of expressions do with them.
///
/// Each call asks that the kinds fit. Arithmetic, comparison and truth calls take no memory.
pub trait Domain {
    type Cell: Drop;

    type Truth;

    /// What the operators give, over numbers without bounds.
    ghost operators: { Operators Self.Cell };

    /// The cells of a kind.
    ghost is_kind: { Kind → Self.Cell → Type 0 };

    /// The numbers of a cell, and those that a product is chosen from.
    ghost figures: { Figures Self.Cell };

    /// The ordinary values that a cell of a kind stands for in a world. Each operator keeps it.
    ghost stands_for: { WhichWorld → Kind → Self.Cell → Value → Type 0 };

    /// The truth of a flag.
    ghost truth_of: { Self.Cell → Self.Truth };

    /// The truths that are valid.
    ghost is_valid: { Self.Truth → Type 0 };

    /// The cell of one value.
    fn literal(value: &Value) -> Result<Self::Cell, NoMemory>
        ensures value { IfOk result (λ c. c ≡ operators.literal value.now) }
        ensures kind { IfOk result (λ c. is_kind (kind_of value.now) c) }
        ensures fits { IfOk result (λ c. Fit (figures.components c)) }
        ensures keeps { (w : WhichWorld) → stands_for w (kind_of value.now) (operators.literal value.now) value.now };

    fn copy(a: &Self::Cell) -> Result<Self::Cell, NoMemory>
        ensures value { IfOk result (λ c. c ≡ a.now) }
        ensures fits { IfOk result (λ c. Fit (figures.components c)) };

    /// Overflow exactly where a number of the sum leaves -2^127 to 2^127-1.
    fn add(a: &Self::Cell, b: &Self::Cell) -> Result<Self::Cell, Overflow>
        requires left { is_kind Kind.Int a.now }
        requires right { is_kind Kind.Int b.now }
        ensures value { OkIff result (Fit (figures.components (operators.add a.now b.now))) (operators.add a.now b.now) }
        ensures kind { IfOk result (λ c. is_kind Kind.Int c) }
        ensures held { Fit (figures.components a.now) × Fit (figures.components b.now) }
        ensures keeps { (w : WhichWorld) (u v : Value) → stands_for w Kind.Int a.now u → stands_for w Kind.Int b.now v → stands_for w Kind.Int (operators.add a.now b.now) (ordinary.add u v) };

    /// Overflow exactly where a number of the difference leaves -2^127 to 2^127-1.
    fn subtract(a: &Self::Cell, b: &Self::Cell) -> Result<Self::Cell, Overflow>
        requires left { is_kind Kind.Int a.now }
        requires right { is_kind Kind.Int b.now }
        ensures value { OkIff result (Fit (figures.components (operators.subtract a.now b.now))) (operators.subtract a.now b.now) }
        ensures kind { IfOk result (λ c. is_kind Kind.Int c) }
        ensures held { Fit (figures.components a.now) × Fit (figures.components b.now) }
        ensures keeps { (w : WhichWorld) (u v : Value) → stands_for w Kind.Int a.now u → stands_for w Kind.Int b.now v → stands_for w Kind.Int (operators.subtract a.now b.now) (ordinary.subtract u v) };

    /// Overflow exactly where a number of the product, or one that it is chosen from, leaves -2^127 to 2^127-1.
    fn multiply(a: &Self::Cell, b: &Self::Cell) -> Result<Self::Cell, Overflow>
        requires left { is_kind Kind.Int a.now }
        requires right { is_kind Kind.Int b.now }
        ensures value { OkIff result (Fit (figures.products a.now b.now ++ figures.components (operators.multiply a.now b.now))) (operators.multiply a.now b.now) }
        ensures kind { IfOk result (λ c. is_kind Kind.Int c) }
        ensures held { Fit (figures.components a.now) × Fit (figures.components b.now) }
        ensures keeps { (w : WhichWorld) (u v : Value) → stands_for w Kind.Int a.now u → stands_for w Kind.Int b.now v → stands_for w Kind.Int (operators.multiply a.now b.now) (ordinary.multiply u v) };

    /// Overflow exactly where a number of the result leaves -2^127 to 2^127-1.
    fn negate(a: &Self::Cell) -> Result<Self::Cell, Overflow>
        requires { is_kind Kind.Int a.now }
        ensures value { OkIff result (Fit (figures.components (operators.negate a.now))) (operators.negate a.now) }
        ensures kind { IfOk result (λ c. is_kind Kind.Int c) }
        ensures held { Fit (figures.components a.now) }
        ensures keeps { (w : WhichWorld) (u : Value) → stands_for w Kind.Int a.now u → stands_for w Kind.Int (operators.negate a.now) (ordinary.negate u) };

    fn compare(how: Comparison, a: &Self::Cell, b: &Self::Cell) -> Self::Cell
        requires { (k : Kind) × is_kind k a.now × is_kind k b.now }
        ensures value { result ≡ operators.compare how a.now b.now }
        ensures kind { is_kind Kind.Flag result }
        ensures held { Fit (figures.components a.now) × Fit (figures.components b.now) }
        ensures keeps { (w : WhichWorld) (k : Kind) (u v : Value) → stands_for w k a.now u → stands_for w k b.now v → stands_for w Kind.Flag (operators.compare how a.now b.now) (ordinary.compare how u v) };

    fn and(a: &Self::Cell, b: &Self::Cell) -> Self::Cell
        requires left { is_kind Kind.Flag a.now }
        requires right { is_kind Kind.Flag b.now }
        ensures value { result ≡ operators.and a.now b.now }
        ensures kind { is_kind Kind.Flag result }
        ensures held { Fit (figures.components a.now) × Fit (figures.components b.now) }
        ensures keeps { (w : WhichWorld) (u v : Value) → stands_for w Kind.Flag a.now u → stands_for w Kind.Flag b.now v → stands_for w Kind.Flag (operators.and a.now b.now) (ordinary.and u v) };

    fn or(a: &Self::Cell, b: &Self::Cell) -> Self::Cell
        requires left { is_kind Kind.Flag a.now }
        requires right { is_kind Kind.Flag b.now }
        ensures value { result ≡ operators.or a.now b.now }
        ensures kind { is_kind Kind.Flag result }
        ensures held { Fit (figures.components a.now) × Fit (figures.components b.now) }
        ensures keeps { (w : WhichWorld) (u v : Value) → stands_for w Kind.Flag a.now u → stands_for w Kind.Flag b.now v → stands_for w Kind.Flag (operators.or a.now b.now) (ordinary.or u v) };

    fn not(a: &Self::Cell) -> Self::Cell
        requires { is_kind Kind.Flag a.now }
        ensures value { result ≡ operators.not a.now }
        ensures kind { is_kind Kind.Flag result }
        ensures held { Fit (figures.components a.now) }
        ensures keeps { (w : WhichWorld) (u : Value) → stands_for w Kind.Flag a.now u → stands_for w Kind.Flag (operators.not a.now) (ordinary.not u) };

    /// The branch that the condition selects, or what covers both where that is open.
    fn choose(
        condition: &Self::Cell,
        then: &Self::Cell,
        otherwise: &Self::Cell,
    ) -> Result<Self::Cell, NoMemory>
        requires condition { is_kind Kind.Flag condition.now }
        requires one_kind { (k : Kind) × is_kind k then.now × is_kind k otherwise.now }
        ensures value { IfOk result (λ c. c ≡ operators.choose condition.now then.now otherwise.now) }
        ensures kind { IfOk result (λ c. (k : Kind) → is_kind k then.now → is_kind k otherwise.now → is_kind k c) }
        ensures held { IfOk result (λ c. Fit (figures.components condition.now) × Fit (figures.components then.now) × Fit (figures.components otherwise.now)) }
        ensures fits { IfOk result (λ c. Fit (figures.components c)) }
        ensures keeps { (w : WhichWorld) (k : Kind) (t u v : Value) → stands_for w Kind.Flag condition.now t → stands_for w k then.now u → stands_for w k otherwise.now v → stands_for w k (operators.choose condition.now then.now otherwise.now) (ordinary.choose t u v) };

    /// The truth of a flag, which is valid.
    fn truth(a: &Self::Cell) -> Self::Truth
        requires { is_kind Kind.Flag a.now }
        ensures value { result ≡ truth_of a.now }
        ensures valid { is_valid result };
}
