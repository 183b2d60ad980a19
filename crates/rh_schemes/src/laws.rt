//! What holds of votes.

ghost use Rattle.rh_schemes.specs.Table.{ThreeReplicasDecideByTheTable};
ghost use Rattle.rh_schemes.specs.Voting.{VotesDecide};

/// How three attempts of a replicated task decide, case by case.
pub fn three_replicas_decide_by_the_table()
    ensures { ThreeReplicasDecideByTheTable }
{}

/// A replicated task is judged as `vote` says of the buffers of its attempts.
pub fn votes_decide()
    ensures { VotesDecide }
{}
