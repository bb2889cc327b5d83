// The definitions on examples.
ghost use Rattle.forms.specs.Examples.{FormsHold, WordsHold};

// What forms, names, numbers and inputs come to on examples.
#[tactic(auto, unfolding(crate::specs::Forms::form_of))]
pub fn examples_hold()
    ensures forms { FormsHold }
    ensures words { WordsHold }
{}
