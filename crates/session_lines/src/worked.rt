ghost use Rattle.session_lines.specs.Examples.{ARequestIsNoted, ARefusedRequestIsNotNoted, APingIsNotNoted, TheTokenIsNoted, ADiscardIsNoted, AnEndIsNotedOnce};

/// Does nothing: its contract is a list of worked fronts of lines, of each of which the definitions compute what is noted.
pub fn notes_compute()
    ensures a_request_is_noted { ARequestIsNoted }
    ensures a_refused_request_is_not_noted { ARefusedRequestIsNotNoted }
    ensures a_ping_is_not_noted { APingIsNotNoted }
    ensures the_token_is_noted { TheTokenIsNoted }
    ensures a_discard_is_noted { ADiscardIsNoted }
    ensures an_end_is_noted_once { AnEndIsNotedOnce }
{}
