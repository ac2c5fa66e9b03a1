//! Texts of built-in and library predicates, and goals with their errors.

/// Texts of built-in predicates and of the library, which end, and their lines.
pub static PREDICATES: [(&'static str, &'static str); 34] = [
    ("?- X is 2 + 3 * 4 - 10 // 3.", "X = 11\nno\n"),
    (
        "?- X is 7 mod -2, Y is -7 // 2, Z is 7 rem -2.",
        "X = -1, Y = -3, Z = 1\nno\n",
    ),
    (
        "?- X is 9223372036854775807 + 1.",
        "error: error(evaluation_error(int_overflow),(is)/2)\n",
    ),
    (
        "?- catch(X is 1 // 0, error(E, I), true).",
        "X = _0, E = evaluation_error(zero_divisor), I = (is)/2\nno\n",
    ),
    (
        "?- X is foo + Y.",
        "error: error(type_error(evaluable,foo/0),(is)/2)\n",
    ),
    ("?- 1 =:= 2 - 1, 1 < 2, \\+ 2 < 1.", "true\nno\n"),
    (
        "?- X = f(A, B, A), copy_term(X, Y), Y = f(1, C, D).",
        "X = f(_1,_2,_1), A = _1, B = _2, Y = f(1,_4,1), C = _4, D = 1\nno\n",
    ),
    ("?- compare(O, f(a), 1), a @< b, 1 @< a.", "O = (>)\nno\n"),
    (
        "?- functor(f(a, b), N, A), functor(T, g, 2).",
        "N = f, A = 2, T = g(_3,_4)\nno\n",
    ),
    (
        "?- functor(T, N, 2).",
        "error: error(instantiation_error,functor/3)\n",
    ),
    (
        "?- arg(2, f(a, b), X), \\+ arg(3, f(a, b), _).",
        "X = b\nno\n",
    ),
    (
        "?- f(a, b) =.. L, T =.. [g, 1].",
        "L = [f,a,b], T = g(1)\nno\n",
    ),
    (
        "?- T =.. [f|a].",
        "error: error(type_error(list,[f|a]),(=..)/2)\n",
    ),
    (
        "?- var(X), atom(a), \\+ ground(f(X)), X \\= f(X).",
        "X = _0\nno\n",
    ),
    (
        "n(0, 0) :- !. n(N, S) :- M is N - 1, n(M, T), S is T + N. ?- n(1000, S).",
        "S = 500500\nno\n",
    ),
    (
        "q([], _, _). q([Q|Qs], D, X) :- Q =\\= X, Q - X =\\= D, X - Q =\\= D, E is D + 1, q(Qs, E, X). \
         s(X, [X|R], R). s(X, [Y|R], [Y|S]) :- s(X, R, S). \
         p([], []). p(L, [X|Q]) :- s(X, L, R), p(R, Q), q(Q, 1, X). \
         ?- once(p([1,2,3,4,5,6], Q)).",
        "Q = [2,4,6,1,3,5]\nno\n",
    ),
    (
        "?- append(X, Y, [1,2]).",
        "X = [], Y = [1,2]\nX = [1], Y = [2]\nX = [1,2], Y = []\nno\n",
    ),
    ("?- length(L, 2).", "L = [_3,_7]\nno\n"),
    ("?- length([a,b], N).", "N = 2\nno\n"),
    ("?- length(L, -1).", "no\n"),
    ("?- reverse([1,2,3], R).", "R = [3,2,1]\nno\n"),
    ("?- between(1, 3, X).", "X = 1\nX = 2\nX = 3\nno\n"),
    (
        "?- catch((member(X, [1,2,3]), X >= 2, throw(found(X))), found(Y), true).",
        "X = _0, Y = 2\nno\n",
    ),
    (
        "?- findall(X-Y, member(X, [1,2]), L).",
        "X = _0, Y = _1, L = [1-_3,2-_4]\nno\n",
    ),
    (
        "?- select(X, [a,b], R).",
        "X = a, R = [b]\nX = b, R = [a]\nno\n",
    ),
    ("member(a, b). ?- member(X, Y).", "X = a, Y = b\nno\n"),
    (
        "?- atom_concat(X, Y, ab), atom_concat(ab, X, Z).",
        "X = '', Y = ab, Z = ab\nX = a, Y = b, Z = aba\nX = ab, Y = '', Z = abab\nno\n",
    ),
    (
        "?- sub_atom(banana, B, L, 3, an). ?- sub_atom(abc, 1, 1, E, S).",
        "B = 1, L = 2\nno\nE = 1, S = b\nno\n",
    ),
    (
        "?- atom_concat(X, Y, Z).",
        "error: error(instantiation_error,atom_concat/3)\n",
    ),
    (
        "?- copy_term(f(X, Y), Z).",
        "X = _0, Y = _1, Z = f(_3,_4)\nno\n",
    ),
    ("?- atom_codes('\u{e9}', L).", "L = [233]\nno\n"),
    (
        "?- sort([b,1,a,b], S), keysort([2-a,1-b,2-c], K).",
        "S = [1,a,b], K = [1-b,2-a,2-c]\nno\n",
    ),
    (
        "?- msort([b,a], L).",
        "error: error(existence_error(procedure,msort/2),msort/2)\n",
    ),
    (
        "?- atom_chars(X, ['1',a]), number_codes(Y, \" 12\").",
        "X = '1a', Y = 12\nno\n",
    ),
];

/// Goals with their errors, and the indicators in them.
pub static ERRORS: [(&'static str, &'static str); 65] = [
    ("compare(1, a, b)", "type_error(atom,1),compare/3"),
    ("compare(x, a, b)", "domain_error(order,x),compare/3"),
    ("functor(T, N, 2)", "instantiation_error,functor/3"),
    ("functor(T, f(a), 1)", "type_error(atomic,f(a)),functor/3"),
    ("functor(T, f, a)", "type_error(integer,a),functor/3"),
    (
        "functor(T, f, -1)",
        "domain_error(not_less_than_zero,-1),functor/3",
    ),
    (
        "functor(T, f, 65536)",
        "representation_error(max_arity),functor/3",
    ),
    ("functor(T, 1, 1)", "type_error(atom,1),functor/3"),
    ("arg(N, f(a), X)", "instantiation_error,arg/3"),
    ("arg(a, f(a), X)", "type_error(integer,a),arg/3"),
    ("arg(1, a, X)", "type_error(compound,a),arg/3"),
    (
        "arg(-1, f(a), X)",
        "domain_error(not_less_than_zero,-1),arg/3",
    ),
    ("T =.. [f|L]", "instantiation_error,(=..)/2"),
    ("T =.. [f|a]", "type_error(list,[f|a]),(=..)/2"),
    ("T =.. []", "domain_error(non_empty_list,[]),(=..)/2"),
    ("T =.. [1,2]", "type_error(atom,1),(=..)/2"),
    ("T =.. [f(a)]", "type_error(atomic,f(a)),(=..)/2"),
    ("sort([a|L], S)", "instantiation_error,sort/2"),
    ("sort(a, S)", "type_error(list,a),sort/2"),
    ("sort([], a)", "type_error(list,a),sort/2"),
    ("keysort([X], S)", "instantiation_error,keysort/2"),
    ("keysort([k-v,a], S)", "type_error(pair,a),keysort/2"),
    ("atom_length(X, Y)", "instantiation_error,atom_length/2"),
    ("atom_length(1, Y)", "type_error(atom,1),atom_length/2"),
    ("atom_length(a, a)", "type_error(integer,a),atom_length/2"),
    (
        "atom_length(a, -1)",
        "domain_error(not_less_than_zero,-1),atom_length/2",
    ),
    ("atom_concat(X, a, Y)", "instantiation_error,atom_concat/3"),
    ("atom_concat(a, 1, Y)", "type_error(atom,1),atom_concat/3"),
    ("sub_atom(X, B, L, E, S)", "instantiation_error,sub_atom/5"),
    ("sub_atom(1, B, L, E, S)", "type_error(atom,1),sub_atom/5"),
    ("sub_atom(a, B, L, E, 1)", "type_error(atom,1),sub_atom/5"),
    (
        "sub_atom(a, -1, l, E, S)",
        "type_error(integer,l),sub_atom/5",
    ),
    (
        "sub_atom(a, B, -1, -2, S)",
        "domain_error(not_less_than_zero,-1),sub_atom/5",
    ),
    ("char_code(C, N)", "instantiation_error,char_code/2"),
    ("char_code(ab, N)", "type_error(character,ab),char_code/2"),
    ("char_code(C, a)", "type_error(integer,a),char_code/2"),
    (
        "char_code(C, 55296)",
        "representation_error(character_code),char_code/2",
    ),
    ("atom_chars(A, [X])", "instantiation_error,atom_chars/2"),
    ("atom_chars(1, L)", "type_error(atom,1),atom_chars/2"),
    (
        "atom_chars(A, [X|foo])",
        "type_error(list,[_0|foo]),atom_chars/2",
    ),
    ("atom_chars(A, [1])", "type_error(character,1),atom_chars/2"),
    (
        "atom_codes(A, [-1,a])",
        "type_error(integer,a),atom_codes/2",
    ),
    (
        "atom_codes(A, [-1])",
        "representation_error(character_code),atom_codes/2",
    ),
    (
        "number_chars(N, [a])",
        "syntax_error(illegal_number),number_chars/2",
    ),
    ("number_chars(a, L)", "type_error(integer,a),number_chars/2"),
    ("number_codes(N, foo)", "instantiation_error,number_codes/2"),
    (
        "number_codes(1, foo)",
        "type_error(list,foo),number_codes/2",
    ),
    ("X is Y", "instantiation_error,(is)/2"),
    ("X is 1 + a", "type_error(evaluable,a/0),(is)/2"),
    ("X is foo(Y)", "type_error(evaluable,foo/1),(is)/2"),
    ("X is 1 << 64", "evaluation_error(int_overflow),(is)/2"),
    ("X is 7 / 2", "evaluation_error(undefined),(is)/2"),
    ("1 mod 0 =:= a", "evaluation_error(zero_divisor),(=:=)/2"),
    ("a < 1 // 0", "type_error(evaluable,a/0),(<)/2"),
    ("call(1, a)", "type_error(callable,1),call/2"),
    ("throw(_)", "instantiation_error,throw/1"),
    ("functor(T, f, A)", "instantiation_error,functor/3"),
    ("arg(1, T, X)", "instantiation_error,arg/3"),
    ("T =.. [X,a]", "instantiation_error,(=..)/2"),
    ("keysort([k-v|L], S)", "instantiation_error,keysort/2"),
    ("keysort(a, S)", "type_error(list,a),keysort/2"),
    ("keysort([], a)", "type_error(list,a),keysort/2"),
    (
        "number_chars(N, [1])",
        "type_error(character,1),number_chars/2",
    ),
    (
        "number_codes(N, [a])",
        "type_error(integer,a),number_codes/2",
    ),
    (
        "number_codes(N, [-1])",
        "representation_error(character_code),number_codes/2",
    ),
];
