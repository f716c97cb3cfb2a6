ghost use Rattle.display_messages.specs.Laws.{StateTheirLength, MessagesArrive};

/// Does nothing: its contract is a law of `spell_request`. Each request has as many units of four bytes
/// as it states.
pub fn requests_state_their_length()
    ensures { StateTheirLength }
{}

/// Does nothing: its contract is a law of `spell_request` and `read_part`. A message that one program
/// sends another is read with its numbers, and as one that was sent.
pub fn a_sent_message_is_read()
    ensures { MessagesArrive }
{}
