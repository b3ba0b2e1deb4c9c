// What holds of the definitions that contracts cite. Nothing here runs.
ghost use Rattle.tera_filters.specs.Laws.{SafeAnswersAreOfSafeTexts};

/// Where a filter answers a safe text, the text that it was given is safe. The one exception is `linebreaks`, which escapes any
/// other text.
#[tactic(auto, using(crate::proofs::Trust::safe_answers_are_of_safe_texts))]
pub fn safe_answers_are_of_safe_texts()
    ensures { SafeAnswersAreOfSafeTexts }
{}
