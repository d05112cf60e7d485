//! Laws of several calls, and of calls beside runs of `jls-salvage join`. Each is a function that does nothing and whose contract
//! is the law.

ghost use Rattle.jls_c.specs.CallLaws.{CallsJoinInAnyOrder, CallsAndRunsJoinAlike, CallsAndRunsReadAlike};
ghost use Rattle.jls_c.specs.CallLaws.{CallsReadWhatCallsWrote, ManyCallsJoinAlike, ManyCallsAndRunsJoinAlike};

/// A law: two calls of `jls_join` are done, and the second has the texts of the first in the other order. Then both write the
/// same bytes and report the same.
pub fn calls_join_in_any_order()
    ensures { CallsJoinInAnyOrder }
{}

/// A law: a call of `jls_join` is done, and so is a run of `join`. The inputs of the run gave the two texts of the call, in any
/// order and with any repeats. Then the run handed exactly the bytes that the call wrote to its output.
pub fn calls_and_runs_join_alike()
    ensures { CallsAndRunsJoinAlike }
{}

/// A law: a call of `jls_partial` is done, and so is a run of `join --source` with the call's source. The one input of the run is
/// the copy. Then the run handed exactly the bytes that the call wrote to its output. It may have read only a front of the copy,
/// if no byte after that changes what the copy gives.
pub fn calls_and_runs_read_alike()
    ensures { CallsAndRunsReadAlike }
{}

/// A law: what `jls_partial` or `jls_join` wrote is a text without fault. So `jls_join` and `jls_lines` never answer that it is
/// none.
pub fn calls_read_what_calls_wrote()
    ensures { CallsReadWhatCallsWrote }
{}

/// A law: calls make partial pictures of copies under one source, and join these and other texts, in any order and in any groups.
/// Another sequence of calls has the same copies and texts, with any repeats. Then the last calls of both write the same bytes
/// and report the same. A run of `join` under that source that is done and has these inputs hands exactly these bytes to its
/// output.
pub fn many_calls_join_alike()
    ensures calls { ManyCallsJoinAlike }
    ensures runs { ManyCallsAndRunsJoinAlike }
{}
