//! The larger programs of `examples/`, whose texts are here too, since a test can read no file outside its crate.

/// Each with its lines.
pub static PROGRAMS: [(&str, &str); 5] = [
    (FAMILY, FAMILY_LINES),
    (PARSER, PARSER_LINES),
    (PUZZLE, PUZZLE_LINES),
    (PLANNER, PLANNER_LINES),
    (SIMPLIFIER, SIMPLIFIER_LINES),
];

/// The text of `data/family.pl`, which the gate runs to a budget that stops it.
const FAMILY: &str = r#"parent(ann, ben).
parent(ann, cleo).
parent(ben, dora).
parent(cleo, emil).
parent(dora, finn).

ancestor(X, Y) :- parent(X, Y).
ancestor(X, Y) :- parent(X, Z), ancestor(Z, Y).

?- ancestor(ann, Who), parent(Who, Child).
"#;

const FAMILY_LINES: &str = r#"Who = ben, Child = dora
Who = cleo, Child = emil
Who = dora, Child = finn
no
"#;

const PARSER: &str =
    r#"% Sentences of a small grammar: a sentence is a list of words, and its tree tells how it is built.
% Each rule takes the words in front of a list, and gives the words that are left.

sentence(s(Subject, Predicate), Words, Rest) :-
    noun_phrase(Subject, Number, Words, Behind),
    verb_phrase(Predicate, Number, Behind, Rest).

noun_phrase(np(Word, Noun), Number, [Word|Words], Rest) :-
    determiner(Word, Number),
    noun_group(Noun, Number, Words, Rest).

noun_group(n(Word), Number, [Word|Rest], Rest) :- noun(Word, Number).
noun_group(n(Word, Group), Number, [Word|Words], Rest) :-
    adjective(Word),
    noun_group(Group, Number, Words, Rest).

verb_phrase(vp(Word), Number, [Word|Rest], Rest) :- verb(Word, Number).
verb_phrase(vp(Word, Object), Number, [Word|Words], Rest) :-
    verb(Word, Number),
    noun_phrase(Object, _, Words, Rest).

determiner(the, _).
determiner(a, one).
determiner(all, many).

noun(cat, one).
noun(cats, many).
noun(dog, one).

adjective(old).
adjective(black).

verb(sees, one).
verb(see, many).

?- sentence(Tree, [the, old, black, cat, sees, a, dog], []).
?- sentence(Tree, [all, cats, see, the, dog], []).
?- \+ sentence(_, [a, cats, see], []).
"#;

const PARSER_LINES: &str = r#"Tree = s(np(the,n(old,n(black,n(cat)))),vp(sees,np(a,n(dog))))
no
Tree = s(np(all,n(cats)),vp(see,np(the,n(dog))))
no
true
no
"#;

const PUZZLE: &str =
    r#"% Three neighbours in a row of houses, each of one colour, with one pet. Generate a row, and test what is known of it:
% the red house is just left of the one with the fish; the cat lives in the blue house; the green house is not the
% first; the dog does not live beside the cat.

member(X, [X|_]).
member(X, [_|Rest]) :- member(X, Rest).

select(X, [X|Rest], Rest).
select(X, [Y|Rest], [Y|Others]) :- select(X, Rest, Others).

order([], []).
order(Items, [X|Order]) :- select(X, Items, Others), order(Others, Order).

left_of(A, B, [A,B|_]).
left_of(A, B, [_|Rest]) :- left_of(A, B, Rest).

beside(A, B, Row) :- left_of(A, B, Row) ; left_of(B, A, Row).

row([house(A, X), house(B, Y), house(C, Z)]) :-
    order([red, green, blue], [A, B, C]),
    order([cat, dog, fish], [X, Y, Z]).

solution(Row) :-
    row(Row),
    left_of(house(red, _), house(_, fish), Row),
    member(house(blue, cat), Row),
    \+ Row = [house(green, _)|_],
    \+ beside(house(_, dog), house(_, cat), Row).

?- solution(Row).
"#;

const PUZZLE_LINES: &str = r#"Row = [house(red,dog),house(green,fish),house(blue,cat)]
no
"#;

const PLANNER: &str =
    r#"% A farmer takes a wolf, a goat and a cabbage across a river, in a boat for two. The first plan that is found is
% thrown, so that the search ends there.

opposite(left, right).
opposite(right, left).

% Where farmer, wolf, goat and cabbage are, before and ending_of_run each crossing.
crossing(goat, at(A, W, A, C), at(B, W, B, C)) :- opposite(A, B).
crossing(wolf, at(A, A, G, C), at(B, B, G, C)) :- opposite(A, B).
crossing(cabbage, at(A, W, G, A), at(B, W, G, B)) :- opposite(A, B).
crossing(alone, at(A, W, G, C), at(B, W, G, C)) :- opposite(A, B).

% The goat is alone with the wolf or the cabbage.
unsafe(at(A, B, B, _)) :- opposite(A, B).
unsafe(at(A, _, B, B)) :- opposite(A, B).

seen(State, [State|_]).
seen(State, [_|States]) :- seen(State, States).

search(at(right, right, right, right), _, []) :- !.
search(State, States, [Passenger|Plan]) :-
    crossing(Passenger, State, Next),
    \+ unsafe(Next),
    \+ seen(Next, States),
    search(Next, [Next|States], Plan).

plan(Plan) :-
    Start = at(left, left, left, left),
    catch((search(Start, [Start], Found), throw(plan(Found))), plan(Plan), true).

?- plan(Plan).
?- findall(Plan, search(at(left, left, left, left), [at(left, left, left, left)], Plan), Plans).
"#;

const PLANNER_LINES: &str = r#"Plan = [goat,alone,wolf,goat,cabbage,alone,goat]
no
Plan = _0, Plans = [[goat,alone,wolf,goat,cabbage,alone,goat],[goat,alone,cabbage,goat,wolf,alone,goat]]
no
"#;

const SIMPLIFIER: &str =
    r#"% Sums and products, simplified from the inside: nought and one go away, equal terms double, and powers are products.

simplify(A + B, S) :- !, simplify(A, C), simplify(B, D), sum(C, D, S).
simplify(A * B, P) :- !, simplify(A, C), simplify(B, D), product(C, D, P).
simplify(A - B, S) :- !, simplify(A, C), simplify(B, D), difference(C, D, S).
simplify(A ^ 2, P) :- !, simplify(A * A, P).
simplify(A, A).

sum(0, B, B) :- !.
sum(A, 0, A) :- !.
sum(A, A, 2 * A) :- !.
sum(A, B, A + B).

difference(A, 0, A) :- !.
difference(A, A, 0) :- !.
difference(A, B, A - B).

product(0, _, 0) :- !.
product(_, 0, 0) :- !.
product(1, B, B) :- !.
product(A, 1, A) :- !.
product(A, B, A * B).

?- simplify((x + 0) * 1 - 0 * y, S).
?- simplify((a * 1 + a) * (b - b + c ^ 2), S).
?- once(simplify(x - (y - y), S)), \+ S = 0.
"#;

const SIMPLIFIER_LINES: &str = r#"S = x
no
S = 2*a*(c*c)
no
S = x
no
"#;
