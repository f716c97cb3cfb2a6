ghost use Rattle.serve_words.specs.Laws.{SayOne};

/// Does nothing: its contract is a law of words. They say one thing at most.
pub fn words_say_one()
    ensures { SayOne }
{}
