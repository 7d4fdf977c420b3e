//! Laws of reasons.
ghost use Rattle.kc_reasons_model.specs.ReasonLaws.{HiddenNeedsAreGiven, NothingIsNeededIfVisible, UnmetPartsAreGiven, NextAreDependencies, MemberNextAreDependencies, NextNamesHide};
ghost use Rattle.kc_reasons_model.specs.PlainReasonLaws.{PlainReasonsAgree};
ghost use Rattle.kc_reasons_model.specs.AssigningLines.{FilesAreOverAssignments};
ghost use Rattle.kc_reasons_model.specs.OverriddenLines.{ListedAreOverridden, OverriddenAreListed};
ghost use Rattle.kc_reasons_model.specs.Laws.{CasesGiveValues, HindrancesAreMissed, HindrancesHold, HindrancesSuffice, PromptsLetInWhatIsWanted, ConjunctsDecide, NothingLacksIfHigh, RaisingSuffices, EachLackingIsNeeded, BlamedNamesKeep, WeakerForceLess, LinesAssign, ClaimsHold, BlamedAreNamed, RuleGivesWhatIf, SpelledIsReadBack, SpellingIsReadAsTokens, PrintedExpressionsAreReadBack, OperandsAreReadBack, DecisiveForceAll, HiddenPromptsLack, UnmetDependenciesLack, AssignableIsTaken, MissedAreHindered, PromptPartsAreLocated, ConditionPartsAreLocated, DependencyPartsAreLocated, FilesAssign, BlamedAreDependencies, ChoiceBlamedAreDependencies, LinesAreOfSymbol, SelectableAreTaken, MembersHaveOneLine, LinesGiveOne, LinesFitUnits, NumbersAreDecisive};

/// The case of each unit, given its value by the case's own formula.
pub fn cases_give_values()
    ensures { CasesGiveValues }
{}

/// Something hinders exactly the user values that aren't the value.
pub fn hindrances_are_missed()
    ensures { HindrancesAreMissed }
{}

/// The hindrance that is found holds.
pub fn hindrances_hold()
    ensures { HindrancesHold }
{}

/// A user value counts in full exactly if a prompt's condition is as high as is wanted.
pub fn prompts_let_in_what_is_wanted()
    ensures { PromptsLetInWhatIsWanted }
{}

/// A condition is as high as is wanted exactly if each of its conjuncts is.
pub fn conjuncts_decide()
    ensures { ConjunctsDecide }
{}

/// Nothing is lacking exactly if a condition is as high as is wanted.
pub fn nothing_lacks_if_high()
    ensures { NothingLacksIfHigh }
{}

/// Raising what is lacking suffices, where no other conjunct falls.
pub fn raising_suffices()
    ensures { RaisingSuffices }
{}

/// While one part lacks, the condition is too low, whatever else changes.
pub fn each_lacking_is_needed()
    ensures { EachLackingIsNeeded }
{}

/// Whatever agrees on the blamed names keeps a condition too low.
pub fn blamed_names_keep()
    ensures { BlamedNamesKeep }
{}

/// Without the decisive selects less is selected; so it is with implies.
pub fn weaker_force_less()
    ensures { WeakerForceLess }
{}

/// The last line that assigns to a unit gives it its user value.
pub fn lines_assign()
    ensures { LinesAssign }
{}

/// The claim of a unit's case holds.
pub fn claims_hold_of_cases()
    ensures { ClaimsHold }
{}

/// The blamed names are in the condition.
pub fn blamed_are_named()
    ensures { BlamedAreNamed }
{}

/// With another user value for one unit alone its value is what its rule gives under the values before.
pub fn rules_give_what_if()
    ensures { RuleGivesWhatIf }
{}

/// The plain spelling of an expression is read as the same tree.
pub fn spelled_is_read_back()
    ensures { SpelledIsReadBack }
{}

/// Names and quoted texts that are none of the constants are read back.
pub fn operands_are_read_back()
    ensures { OperandsAreReadBack }
{}

/// Each decisive select or imply gives the limit of all together.
pub fn decisive_force_all()
    ensures { DecisiveForceAll }
{}

/// Where a user value doesn't count in full, each prompt lacks something.
pub fn hidden_prompts_lack()
    ensures { HiddenPromptsLack }
{}

/// Where more is selected than the direct dependency, each definition lacks something.
pub fn unmet_dependencies_lack()
    ensures { UnmetDependenciesLack }
{}

/// A visible bool or tristate can be set to a value exactly if, set to it alone, it has that value.
pub fn assignable_is_taken()
    ensures { AssignableIsTaken }
{}

/// The missed symbols are those about which a user value is that something hinders.
pub fn missed_are_hindered()
    ensures { MissedAreHindered }
{}

/// What a prompt's condition lacks are the lacking parts of its lines.
pub fn prompt_parts_are_located()
    ensures { PromptPartsAreLocated }
{}

/// What the condition of a default, a range, a select or an imply lacks are the lacking parts of its lines.
pub fn condition_parts_are_located()
    ensures { ConditionPartsAreLocated }
{}

/// What the dependency of a definition lacks are the lacking parts of its lines.
pub fn dependency_parts_are_located()
    ensures { DependencyPartsAreLocated }
{}

/// Of several files, each over those before it, the last line that assigns to a unit gives it its user value.
pub fn files_assign()
    ensures { FilesAssign }
{}

/// The blamed names of a symbol's conditions are of units on which it depends.
pub fn blamed_are_dependencies()
    ensures { BlamedAreDependencies }
{}

/// The blamed names of the conditions of a choice and its members are of units on which the choice depends.
pub fn choice_blamed_are_dependencies()
    ensures { ChoiceBlamedAreDependencies }
{}

/// The lines of each symbol of a tree that is read are those of its conditions and attributes.
pub fn lines_are_of_symbol()
    ensures { LinesAreOfSymbol }
{}

/// If the visibility is too low for what is assigned, each prompt is given with at least one part that it lacks.
pub fn hidden_needs_are_given()
    ensures { HiddenNeedsAreGiven }
{}

/// If the visibility is high enough, nothing is needed.
pub fn nothing_is_needed_if_visible()
    ensures { NothingIsNeededIfVisible }
{}

/// Of an unmet dependency each definition is given with at least one part that it lacks.
pub fn unmet_parts_are_given()
    ensures { UnmetPartsAreGiven }
{}

/// The names to go on with are of units on which the unit of a symbol outside choices depends.
pub fn next_are_dependencies()
    ensures { NextAreDependencies }
{}

/// The names to go on with of a member of a choice are of units on which the choice depends.
pub fn member_next_are_dependencies()
    ensures { MemberNextAreDependencies }
{}

/// The text of the plain spelling of an expression is read as its tokens.
pub fn spelling_is_read_as_tokens()
    ensures { SpellingIsReadAsTokens }
{}

/// While the names to go on with have their values, no prompt is high enough.
pub fn next_names_hide()
    ensures { NextNamesHide }
{}

/// While one of the hindrances that suffice holds of a user value, this isn't the value.
pub fn hindrances_suffice()
    ensures { HindrancesSuffice }
{}

/// An expression that is printed is read back as the same tree.
pub fn printed_expressions_are_read_back()
    ensures { PrintedExpressionsAreReadBack }
{}

/// A choice can be set to a member exactly if, set to it alone, it has it.
pub fn selectable_are_taken()
    ensures { SelectableAreTaken }
{}

/// What is assigned gives no member of a choice both `y` and `n`.
pub fn members_have_one_line()
    ensures { MembersHaveOneLine }
{}

/// A line of a configuration file gives no member both.
pub fn lines_give_one()
    ensures { LinesGiveOne }
{}

/// What lines of a configuration file of UTF-8 assign to a unit fits it.
pub fn lines_fit_units()
    ensures { LinesFitUnits }
{}

/// The numbers of the decisive selects or implies are those of the selects or implies that force as much as all together.
pub fn numbers_are_decisive()
    ensures { NumbersAreDecisive }
{}

/// The reasons of a symbol without places are its reasons with places, but for these.
pub fn plain_reasons_agree()
    ensures { PlainReasonsAgree }
{}

/// Of several files those lines are listed as overridden after which a file asks for another value, each with the first such file.
pub fn overridden_lines_are_listed()
    ensures listed { ListedAreOverridden }
    ensures all { OverriddenAreListed }
{}

/// The lines of several files, one after another, give what their own assignments give, each merged with those before it.
pub fn files_are_over_assignments()
    ensures { FilesAreOverAssignments }
{}
