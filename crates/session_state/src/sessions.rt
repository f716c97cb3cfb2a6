ghost use Rattle.session_state.specs.Examples.{ASnapshotIsHeld, TheOthersAreHeld, MembersGoOn, TheSecondPhaseIsNoted, AnAgreedRoundIsGone, ACheckpointWaits, TheTokenIsPassedOn, TheTokenIsGivenBack, ACancelledQueueIsEmpty, AStrayIsHeld, ABookTakesStraysUp, ARespawnIsCounted, ActsAreInOrder, AnIdOfAnotherSessionIsRefused, IdsOfAnotherSessionAreKnown, EntriesOfAnotherSessionAreNotCounted, WhatAnotherSessionNeedsIsKept};

/// Does nothing: its contract is a list of worked sessions with what is held after each, which the
/// definitions compute.
pub fn sessions_are_held()
    ensures a_snapshot_is_held { ASnapshotIsHeld }
    ensures the_others_are_held { TheOthersAreHeld }
    ensures members_go_on { MembersGoOn }
    ensures the_second_phase_is_noted { TheSecondPhaseIsNoted }
    ensures an_agreed_round_is_gone { AnAgreedRoundIsGone }
    ensures a_checkpoint_waits { ACheckpointWaits }
    ensures the_token_is_passed_on { TheTokenIsPassedOn }
    ensures the_token_is_given_back { TheTokenIsGivenBack }
    ensures a_cancelled_queue_is_empty { ACancelledQueueIsEmpty }
    ensures a_stray_is_held { AStrayIsHeld }
    ensures a_book_takes_strays_up { ABookTakesStraysUp }
    ensures a_respawn_is_counted { ARespawnIsCounted }
    ensures acts_are_in_order { ActsAreInOrder }
    ensures an_id_of_another_session_is_refused { AnIdOfAnotherSessionIsRefused }
    ensures ids_of_another_session_are_known { IdsOfAnotherSessionAreKnown }
    ensures entries_of_another_session_are_not_counted { EntriesOfAnotherSessionAreNotCounted }
    ensures what_another_session_needs_is_kept { WhatAnotherSessionNeedsIsKept }
{}
