//! The library's text.
ghost use Rattle.std.specs.Prelude.{◌≡◌};
ghost use Rattle.std.specs.Str.{chars};
ghost use Rattle.toplevel.specs.Library.{library_text};

const LIBRARY: &str = "append([], L, L).
append([H|T], L, [H|R]) :- append(T, L, R).
member(X, [X|_]).
member(X, [_|T]) :- member(X, T).
select(X, [X|T], T).
select(X, [H|T], [H|R]) :- select(X, T, R).
reverse(L, R) :- '$reverse'(L, [], R).
'$reverse'([], R, R).
'$reverse'([H|T], A, R) :- '$reverse'(T, [H|A], R).
length(L, N) :- integer(N), !, N >= 0, '$length_to'(L, N).
length(L, N) :- '$length_from'(L, 0, N).
'$length_to'([], 0).
'$length_to'([_|T], N) :- N > 0, M is N - 1, '$length_to'(T, M).
'$length_from'([], N, N).
'$length_from'([_|T], I, N) :- J is I + 1, '$length_from'(T, J, N).
between(L, H, X) :- integer(X), !, X >= L, X =< H.
between(L, H, L) :- L =< H.
between(L, H, X) :- L < H, M is L + 1, between(M, H, X).
";

/// The text of the library: `append/3`, `member/2`, `select/3`, `reverse/2`, `length/2` and `between/3`.
pub fn library() -> &'static str
    ensures { chars result.now ≡ library_text }
{
    LIBRARY
}
