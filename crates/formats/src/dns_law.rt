//! Laws of questions.
ghost use Rattle.std.specs.Prelude.{◌≡◌, ℕ, List, Some};
ghost use Rattle.net_base.specs.declared.question.Question.{Question};
ghost use Rattle.net_base.specs.DomainQuestions.{ReadsQuestion, question_of};

/// The question that is found in a message is spelled there.
pub fn a_question_is_spelled()
    ensures { (message : List ℕ) (q : Question) → question_of message ≡ Some q → ReadsQuestion message q }
{}

/// The question that a message spells is found there, so there is only one.
pub fn what_is_spelled_is_a_question()
    ensures { (message : List ℕ) (q : Question) → ReadsQuestion message q → question_of message ≡ Some q }
{}
