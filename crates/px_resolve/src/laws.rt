// What a literal is in which nothing is wrong.
ghost use Rattle.std.specs.Prelude.{◌≡◌, []};
ghost use Rattle.px_ast.specs.declared.literal.Literal.{Literal};
ghost use Rattle.px_resolve.specs.Literals.{HasText, literal_faults, value_of_literal};
ghost use Rattle.px_values.specs.Types.{HasType};
ghost use Rattle.px_values.specs.declared.column.ColType.{ColType};

/// A literal in which nothing is wrong is a value of its column's type, where its text is UTF-8, as each text is.
pub fn law_typed()
    ensures { (ty : ColType) (l : Literal) → literal_faults ty l ≡ [] → HasText (value_of_literal l.constant) → HasType ty (value_of_literal l.constant) }
{}
