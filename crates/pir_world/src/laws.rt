//! Laws of runs, over the definitions alone. A caller that calls one of these functions has its law
//! at hand in its proof; the call costs nothing.

ghost use Rattle.pir_world.specs.Freshness.{AnswersAreFresh, EveryLogIsFresh};
ghost use Rattle.pir_world.specs.Headlines.{EveryRunIsRight};
ghost use Rattle.pir_world.specs.Shapes.{IndicesChangeNoShape};

/// In every run of every list of steps, for all seeds: an answered retrieval whose noise sums stay
/// below half of delta gives its record's bytes in the version that its hint names, a query is
/// refused as stale exactly when it names another version than the current one, and no client
/// fails. Each query sent is that of an accepted ask, with a number of its own, and each reply that
/// ends a retrieval was served to its query.
pub fn every_run_is_right()
    ensures { EveryRunIsRight }
{
    pir_schemes::laws::retrieval_gives_the_record();
}

/// An answer is of the version that is current when its query is served, and no later one had been
/// reported to anybody before: at the next delivery of a run (`delivered`), and by its log at each
/// one before (`logged`).
pub fn answers_are_fresh()
    ensures delivered { AnswersAreFresh }
    ensures logged { EveryLogIsFresh }
{
    pir_schemes::laws::retrieval_gives_the_record();
}

/// What goes over the links, each frame by its kind and its length, is the same in two runs from
/// one opening whose steps differ in the indices of asks alone, and of each client's calls the same
/// are refused. In both none of the asks whose indices differ is refused for its index, and no
/// reply is refused because the server is out of memory.
pub fn indices_change_no_shape()
    ensures { IndicesChangeNoShape }
{
    pir_schemes::laws::retrieval_gives_the_record();
}
