//! Laws of how lines are read as tokens, and tokens as expressions.
ghost use Rattle.std.specs.Prelude.{◌≡◌, ◌↔◌, ◌⊎◌, ℕ, List, Ok, Err};
ghost use Rattle.kc_value.specs.declared.limits.TheConstants.{MAX_EXPR_DEPTH};
ghost use Rattle.kc_tokens.specs.declared.fault.ExprFault.{ExprFault};
ghost use Rattle.kc_tokens.specs.declared.language.Language.{Language};
ghost use Rattle.kc_tokens.specs.declared.language.Language.TheVariants.{Strict, Linux};
ghost use Rattle.kc_tokens.specs.declared.language.LinuxVersion.{LinuxVersion};
ghost use Rattle.kc_tokens.specs.Token.{Lexeme, lexemes_from};
ghost use Rattle.kc_tokens.specs.TokenGrammar.{IsCut, IsFirstTokenFault};
ghost use Rattle.kc_tokens.specs.declared.fault.ExprKind.{ExprKind};
ghost use Rattle.kc_expr.specs.Expr.{Expr};
ghost use Rattle.kc_expr.specs.ExprFaults.{IsFirstExprFault};
ghost use Rattle.kc_expr.specs.Grammar.{read_expr, IsExpr, ors};

/// In each language, a line is read as a list of tokens exactly where the definition `IsCut` cuts the line into these tokens.
pub fn tokens_are_the_language()
    ensures { (language : Language) (line : List ℕ) (ps : List Lexeme) → (lexemes_from language 0 0 line ≡ Ok ps) ↔ IsCut language 0 line ps }
{}

/// In each language, a line is refused with a fault exactly where `IsFirstTokenFault` has this fault as the line's first.
pub fn token_faults_are_first_faults()
    ensures { (language : Language) (line : List ℕ) (fault : ExprFault) → (lexemes_from language 0 0 line ≡ Err fault) ↔ IsFirstTokenFault language 0 line fault }
{}

/// Each line has either one list of tokens by `IsCut` or one first fault by `IsFirstTokenFault`, never both.
pub fn each_line_has_one_reading()
    ensures some { (language : Language) (line : List ℕ) → ((ps : List Lexeme) × IsCut language 0 line ps) ⊎ ((fault : ExprFault) × IsFirstTokenFault language 0 line fault) }
    ensures not_both { (language : Language) (line : List ℕ) (ps : List Lexeme) (fault : ExprFault) → IsCut language 0 line ps → IsFirstTokenFault language 0 line fault → ⊥ }
    ensures tokens { (language : Language) (line : List ℕ) (ps qs : List Lexeme) → IsCut language 0 line ps → IsCut language 0 line qs → ps ≡ qs }
    ensures fault { (language : Language) (line : List ℕ) (e f : ExprFault) → IsFirstTokenFault language 0 line e → IsFirstTokenFault language 0 line f → e ≡ f }
{}

/// If the strict language reads a line as tokens, that of each version of Linux reads the line as the same tokens.
pub fn linux_reads_strict_lines()
    ensures { (version : LinuxVersion) (line : List ℕ) (ps : List Lexeme) → lexemes_from Strict 0 0 line ≡ Ok ps → lexemes_from (Linux version) 0 0 line ≡ Ok ps }
{}

/// Tokens are read as an expression exactly where the grammar has them as that expression.
pub fn reading_is_the_grammar()
    ensures { (ts : List Lexeme) (e : Expr) → (read_expr ts ≡ Ok e) ↔ IsExpr ors MAX_EXPR_DEPTH ts e }
{}

/// Tokens are refused as an expression with a fault exactly where it is their first one: `Malformed` where they stop beginning
/// any expression or end too early, or `TooDeep` at an operand that is too deep.
pub fn reading_finds_the_first_fault()
    ensures { (ts : List Lexeme) (fault : ExprKind × List Lexeme) → (read_expr ts ≡ Err fault) ↔ IsFirstExprFault ts fault }
{}
