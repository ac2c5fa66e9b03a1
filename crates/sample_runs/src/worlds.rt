//! Texts whose goals write, look at the world, change it, or end the run.
use crate::rows::{FINISHED, Row};
use run_model::Ending;

/// With their budgets, endings and lines.
pub static WORLD: [Row; 29] = [
    ("?- (write(a) ; write(b)), fail.", "99", FINISHED, "abno\n"),
    (
        "t :- write(x). t :- write(y). ?- once(t).",
        "99",
        FINISHED,
        "xtrue\nno\n",
    ),
    (
        "?- (true -> write(a) ; write(b)).",
        "6",
        FINISHED,
        "atrue\nno\n",
    ),
    (
        "?- (true -> write(a) ; write(b)).",
        "5",
        Ending::Budget,
        "atrue\n",
    ),
    (
        "?- member(X, [a,b]), write(X), nl.",
        "99",
        FINISHED,
        "a\nX = a\nb\nX = b\nno\n",
    ),
    (
        "?- write(a), halt(3). ?- write(b).",
        "99",
        Ending::Halted(3),
        "a",
    ),
    (
        "?- catch(findall(X, (member(X, [1,2]), X > 1, halt), _), _, true).",
        "99",
        Ending::Halted(0),
        "",
    ),
    ("?- write(a), halt(63).", "2", Ending::Halted(63), "a"),
    ("?- write(a), halt(63).", "1", Ending::Budget, "a"),
    (
        ":- dynamic(c/1). c(1). ?- c(X), Y is X+1, Y < 4, assertz(c(Y)). ?- c(X).",
        "99",
        FINISHED,
        "X = 1, Y = 2\nno\nX = 1\nX = 2\nno\n",
    ),
    (
        "s :- assertz(k(1)). s :- k(X), write(X). ?- s.",
        "99",
        FINISHED,
        "true\n1true\nno\n",
    ),
    (
        "?- asserta(p(1)), asserta(p(2)), assertz(p(3)), findall(X, p(X), L).",
        "99",
        FINISHED,
        "X = _0, L = [2,1,3]\nno\n",
    ),
    (
        ":- dynamic(p/1). p(1). p(2). ?- p(X), assertz(p(9)), write(X), fail. ?- findall(X, p(X), L).",
        "99",
        FINISHED,
        "12no\nX = _0, L = [1,2,9,9]\nno\n",
    ),
    (
        ":- dynamic(p/1). p(1). p(2). ?- p(X), retract(p(2)). ?- p(X).",
        "99",
        FINISHED,
        "X = 1\nno\nX = 1\nno\n",
    ),
    (
        ":- dynamic(p/1). p(1). p(2). ?- retract(p(X)), retract(p(Y)). ?- p(X).",
        "99",
        FINISHED,
        "X = 1, Y = 2\nno\nno\n",
    ),
    (
        ":- dynamic(c/1). c(1). c(2). c(3). ?- retract(c(X)), X >= 2, !. ?- c(X).",
        "99",
        FINISHED,
        "X = 2\nno\nX = 3\nno\n",
    ),
    (
        ":- dynamic(p/0). p :- retract((p :- _)), write(x), write(y). ?- p. ?- p.",
        "99",
        FINISHED,
        "xytrue\nno\nno\n",
    ),
    (
        ":- dynamic(f/1). f(X) :- X > 1, g. f(2). ?- clause(f(X), B).",
        "99",
        FINISHED,
        "X = _0, B = (_0 > 1,g)\nX = 2, B = true\nno\n",
    ),
    (
        "?- assertz((p(X) :- X)), clause(p(Y), B).",
        "99",
        FINISHED,
        "X = _0, Y = _1, B = call(_1)\nno\n",
    ),
    ("?- clause(f(X), B).", "99", FINISHED, "no\n"),
    ("?- retract((x :- in_win95)).", "99", FINISHED, "no\n"),
    (
        "?- assertz(p(1)), retract(p(1)), p(X).",
        "99",
        FINISHED,
        "no\n",
    ),
    (
        "?- assertz(p(1)), abolish(p/1), p(X).",
        "99",
        FINISHED,
        "error: error(existence_error(procedure,p/1),p/1)\n",
    ),
    (
        "?- op(700, xfx, likes). ?- X = likes(a, b). ?- op(0, xfx, likes), X = likes(a, b).",
        "99",
        FINISHED,
        "true\nno\nX = (a likes b)\nno\nX = likes(a,b)\nno\n",
    ),
    (
        "?- current_op(P, T, -). ?- current_op(P, xfx, is).",
        "99",
        FINISHED,
        "P = 200, T = fy\nP = 500, T = yfx\nno\nP = 700\nno\n",
    ),
    (
        ":- dynamic(n/1). n(0). up :- retract(n(X)), Y is X + 1, assertz(n(Y)), !.
         loop(0) :- !. loop(K) :- up, J is K - 1, loop(J). ?- loop(1000), n(X).",
        "99999",
        FINISHED,
        "X = 1000\nno\n",
    ),
    (
        ":- dynamic(m/2). f(N, V) :- m(N, V), !. f(0, 0). f(1, 1).
         f(N, V) :- N > 1, A is N - 1, B is N - 2, f(B, W), f(A, U), V is U + W, asserta(m(N, V)).
         ?- once(f(60, V)).",
        "9999",
        FINISHED,
        "V = 1548008755920\nno\n",
    ),
    (
        "?- writeq([a|b]), nl, writeq(-(1)), nl, writeq(1 - -1), nl, writeq('hello world'), nl, writeq(f(',',(a,b))), nl, fail.",
        "99",
        FINISHED,
        "[a|b]\n- 1\n1- -1\n'hello world'\nf(',',(a,b))\nno\n",
    ),
    (
        "queens(N, Q) :- range(1, N, Ns), place(Ns, [], Q). range(N, N, [N]) :- !.
         range(I, N, [I|T]) :- I < N, J is I + 1, range(J, N, T). place([], _, []).
         place(Ns, P, [X|Q]) :- select(X, Ns, R), safe(X, 1, P), place(R, [X|P], Q). safe(_, _, []).
         safe(X, D, [Y|Ys]) :- X =\\= Y + D, X =\\= Y - D, E is D + 1, safe(X, E, Ys).
         ?- queens(8, Q), !. ?- findall(Q, queens(8, Q), L), length(L, N), write(N), nl, fail.",
        "9999999",
        FINISHED,
        "Q = [1,5,8,6,3,7,2,4]\nno\n92\nno\n",
    ),
];

/// Goals with their errors, and the indicators in them.
pub static WORLD_ERRORS: [(&'static str, &'static str); 42] = [
    ("asserta(X)", "instantiation_error,asserta/1"),
    ("assertz((foo :- 4))", "type_error(callable,4),assertz/1"),
    ("assertz((4 :- true))", "type_error(callable,4),assertz/1"),
    (
        "assertz((foo, bar))",
        "permission_error(modify,static_procedure,(',')/2),assertz/1",
    ),
    (
        "asserta((atom(_) :- true))",
        "permission_error(modify,static_procedure,atom/1),asserta/1",
    ),
    (
        "assertz(member(a, b))",
        "permission_error(modify,static_procedure,member/2),assertz/1",
    ),
    ("retract((X :- true))", "instantiation_error,retract/1"),
    ("retract((4 :- X))", "type_error(callable,4),retract/1"),
    (
        "retract((atom(X) :- X == '[]'))",
        "permission_error(modify,static_procedure,atom/1),retract/1",
    ),
    ("clause(X, B)", "instantiation_error,clause/2"),
    ("clause(4, B)", "type_error(callable,4),clause/2"),
    ("clause(f(_), 5)", "type_error(callable,5),clause/2"),
    (
        "clause(atom(_), B)",
        "permission_error(access,private_procedure,atom/1),clause/2",
    ),
    ("abolish(X)", "instantiation_error,abolish/1"),
    ("abolish(foo/X)", "instantiation_error,abolish/1"),
    (
        "abolish(foo)",
        "type_error(predicate_indicator,foo),abolish/1",
    ),
    ("abolish(1/2)", "type_error(atom,1),abolish/1"),
    ("abolish(foo/a)", "type_error(integer,a),abolish/1"),
    (
        "abolish(foo/(-1))",
        "domain_error(not_less_than_zero,-1),abolish/1",
    ),
    (
        "abolish(foo/65536)",
        "representation_error(max_arity),abolish/1",
    ),
    (
        "abolish(abolish/1)",
        "permission_error(modify,static_procedure,abolish/1),abolish/1",
    ),
    (
        "current_op(1201, T, N)",
        "domain_error(operator_priority,1201),current_op/3",
    ),
    (
        "current_op(P, zzz, N)",
        "domain_error(operator_specifier,zzz),current_op/3",
    ),
    ("current_op(P, T, 1)", "type_error(atom,1),current_op/3"),
    ("op(30, T, ++)", "instantiation_error,op/3"),
    ("op(max, xfy, ++)", "type_error(integer,max),op/3"),
    (
        "op(1201, xfy, ++)",
        "domain_error(operator_priority,1201),op/3",
    ),
    (
        "op(30, yfy, ++)",
        "domain_error(operator_specifier,yfy),op/3",
    ),
    (
        "op(30, xfy, ',')",
        "permission_error(modify,operator,','),op/3",
    ),
    (
        "op(30, xfy, [[]])",
        "permission_error(create,operator,[]),op/3",
    ),
    ("put_char(X)", "instantiation_error,put_char/1"),
    ("put_char(ab)", "type_error(character,ab),put_char/1"),
    ("halt(X)", "instantiation_error,halt/1"),
    ("halt(a)", "type_error(integer,a),halt/1"),
    ("halt(64)", "domain_error(exit_status,64),halt/1"),
    ("halt(-1)", "domain_error(exit_status,-1),halt/1"),
    ("op(30, xfy, [a|L])", "instantiation_error,op/3"),
    ("op(30, xfy, [X])", "instantiation_error,op/3"),
    ("op(30, 1, ++)", "type_error(atom,1),op/3"),
    ("op(30, xfy, 1)", "type_error(list,1),op/3"),
    ("op(30, xfy, [1])", "type_error(atom,1),op/3"),
    ("op(200, yf, +)", "permission_error(create,operator,+),op/3"),
];
