// The words of explanations. A phrase begins behind a line with a tilde, which names it, and ends at the next one; a dollar sign stands for what is filled in:
// $n, $m numbers; $o the operation; $x a part of the text; $f with a letter the variables of a group with their values; $l, $r the same in the left or right column, $b both states side by side;
// $v the names of those variables of a group that the number n has the bits of; $? the rest of the line only where the group has variables; $s the symbols that n has the bits of;
// $u the text's line at the byte n, with m bytes underlined; $e an ending, given as the operation; $. no newline behind the phrase.
// The groups: a abstract, c concrete, i inputs, q outputs, A and C the primed ones.
// Form 1: the constants count the phrases in the order of the words. An item of a page is public: `phrase: usize` takes any number, which an enum would not, and a rule's phrase would need a
// `match` over the rule's number, where it stands now as many phrases behind `RULE_1` as the rule behind rule 1.

pub const REFUTED_INITIALISATION: usize = 0;

pub const REFUTED_APPLICABILITY: usize = 1;

pub const REFUTED_CORRECTNESS: usize = 2;

pub const ACCEPTED: usize = 3;

pub const THE_BINDING_OF_INITIALISATION: usize = 4;

pub const NO_RELATED_INITIAL_STATE: usize = 5;

pub const NO_INITIAL_STATE: usize = 6;

pub const AN_ABSTRACT_STATE: usize = 7;

pub const WHY_TWO_STATES_ARE_NOT_RELATED: usize = 8;

pub const AND_MORE: usize = 9;

pub const THE_BINDING_OF_AN_OPERATION: usize = 10;

pub const THE_CONCRETE_STEP_OF_A_BINDING: usize = 11;

pub const WHAT_HOLDS_OF_APPLICABILITY: usize = 12;

pub const WHAT_FAILS_OF_APPLICABILITY: usize = 13;

pub const A_CONDITION_THAT_IS_FALSE: usize = 14;

pub const NO_SINGLE_CONDITION: usize = 15;

pub const WHAT_HOLDS_OF_CORRECTNESS: usize = 16;

pub const WHAT_FAILS_OF_CORRECTNESS: usize = 17;

pub const ABSTRACT_STEPS: usize = 18;

pub const AN_ABSTRACT_AFTER_STATE: usize = 19;

pub const NO_ABSTRACT_STEP_WITH_THESE_OUTPUTS: usize = 20;

pub const REACHED_AT_ONCE: usize = 21;

pub const REACHED_BY_A_LIST: usize = 22;

pub const AN_ENTRY_OF_THE_LIST: usize = 23;

pub const NOT_REACHED: usize = 24;

pub const REACHED_LEFT_OUT: usize = 25;

pub const WHAT_PREDICATES_LEAVE_OUT: usize = 26;

pub const NOTHING_LEFT_OUT: usize = 27;

pub const ABSTRACT_PRIMED_VARIABLES: usize = 28;

pub const OUTPUTS_OF_THE_ABSTRACT_SIDE: usize = 29;

pub const CONCRETE_PRIMED_VARIABLES: usize = 30;

pub const OUTPUTS_OF_THE_CONCRETE_SIDE: usize = 31;

pub const PRECONDITIONS: usize = 32;

pub const NARROWED: usize = 33;

pub const WIDENED: usize = 34;

pub const NEITHER: usize = 35;

pub const WHAT_WAS_BOUGHT: usize = 36;

pub const NO_OPERATION: usize = 37;

pub const NO_CONCRETE_INITIAL_STATE: usize = 38;

pub const STATES: usize = 39;

pub const CONCRETE_STATES: usize = 40;

pub const RELATED_PAIRS: usize = 41;

pub const A_CONCRETE_STATE_THAT_STANDS_FOR_NOTHING: usize = 42;

pub const AN_ABSTRACT_STATE_THAT_NOTHING_STANDS_FOR: usize = 43;

pub const PROMISES: usize = 44;

pub const NO_PROMISE: usize = 45;

pub const COUNTS_LEFT_OUT: usize = 46;

pub const A_RUN: usize = 47;

pub const A_STEP_OF_THE_RUN: usize = 48;

pub const THE_STATES_BEHIND_A_STEP: usize = 49;

pub const REFUSED: usize = 50;

pub const THE_PLACE: usize = 51;

pub const THE_PLACE_AT_THE_END: usize = 52;

pub const THE_LINE_UNDERLINED: usize = 53;

pub const RULE_1: usize = 54;

pub const RULE_2: usize = 55;

pub const RULE_3: usize = 56;

pub const RULE_4: usize = 57;

pub const RULE_5: usize = 58;

pub const RULE_6: usize = 59;

pub const RULE_7: usize = 60;

pub const RULE_8: usize = 61;

pub const RULE_9: usize = 62;

pub const RULE_10: usize = 63;

pub const RULE_11: usize = 64;

pub const RULE_12: usize = 65;

pub const RULE_13: usize = 66;

pub const RULE_14: usize = 67;

pub const COULD_STAND: usize = 68;

pub const IN_USE_SINCE: usize = 69;

pub const IN_REACH: usize = 70;

pub const A_FIRST_NAME: usize = 71;

pub const A_FURTHER_NAME: usize = 72;

pub const NONE_IN_REACH: usize = 73;

pub const END_OF_NAMES: usize = 74;

pub const THE_LEFT_SIDE: usize = 75;

pub const THE_RIGHT_SIDE: usize = 76;

pub const A_NUMBER: usize = 77;

pub const AN_ELEMENT: usize = 78;

pub const A_SET_OF_ELEMENTS: usize = 79;

pub const A_SET_OF_PAIRS: usize = 80;

pub const THE_SECOND_SET: usize = 81;

pub const OF_NO_TYPE: usize = 82;

pub const A_SIZE: usize = 83;

pub const A_BRACE_OF_SEVERAL_TYPES: usize = 84;

pub const TOO_MANY_GIVEN_SETS: usize = 85;

pub const TOO_MANY_ELEMENTS: usize = 86;

pub const TOO_MANY_VARIABLES: usize = 87;

pub const TOO_MANY_INPUTS: usize = 88;

pub const TOO_MANY_OUTPUTS: usize = 89;

pub const TOO_MANY_OPERATIONS: usize = 90;

pub const THE_ENTRY_OF_THE_CONTENTS: usize = 91;

pub const NO_FURTHER_ENTRY: usize = 92;

pub const FIRST_END_LARGER: usize = 93;

pub const NUMBERS_OF_A_RANGE: usize = 94;

pub const PAIRS_OF_A_TYPE: usize = 95;

pub const BINDINGS_OF_A_GROUP: usize = 96;

pub const BINDINGS_NOT_TOLD: usize = 97;

pub const NOT_COMPARED: usize = 98;

pub const PROMISES_LEFT_OUT: usize = 99;

pub const WORDS: &[u8] = b"
~ refuted initialisation
refuted initialisation
~ refuted applicability
refuted applicability $o
~ refuted correctness
refuted correctness $o
~ accepted
accepted
~ the binding of initialisation

The binding
  A concrete initial state: $fc
~ no related initial state

What fails
  No abstract initial state is related to it. The abstract initial states:
~ no initial state

What fails
  There is no abstract initial state: no state of the abstract side meets ainit.
~ an abstract state
    $fa
~ why two states are not related
      not related, since this conjunct of retrieve is false: $x
~ and more
    and $n more
~ the binding of an operation

The binding
              abstract                                  concrete
  before$b
$?i  inputs$li
~ the concrete step of a binding
$?q  outputs$rq
  after$rC
~ what holds, of applicability

What holds there
  Both are states, and retrieve relates them.
  The abstract side can step, so the concrete side must be able to. One abstract step:
$?q    outputs $fq
    after   $fA
~ what fails, of applicability

What fails
  The concrete side has no step from there: no outputs and no after state meet its predicate.
~ a condition that is false
  This conjunct of it speaks of the state before and the inputs alone, and is false there: $x
~ no single condition
  No conjunct on the state before and the inputs alone excludes it: the conjuncts on outputs and after state, with the concrete state's own predicate, cannot be met together.
~ what holds, of correctness

What holds there
  Both are states, and retrieve relates them.
  The abstract side can step with these inputs, so what the concrete side does must be right.
  The concrete side can take this step, by its predicate.
~ what fails, of correctness

What fails
  No abstract step from there, with the same inputs and outputs, leads to a state that is related to the concrete after state.
~ abstract steps
  The abstract steps with these inputs and outputs lead to:
~ an abstract after state
    $fA
~ no abstract step with these outputs
  There is no abstract step with these outputs. One with other outputs:
    outputs $fq
    after   $fA
~ reached at once

Can both machines come to these states?
  Yes: both begin there.
~ reached by a list

Can both machines come to these states?
  Yes, side by side, by this shortest list of operations:
~ an entry of the list
    $n. $o$?i $fi
~ not reached

Can both machines come to these states?
  No list of operations brings both machines to them side by side. They count all the same: every state counts, reached or not. To exclude a state that should not occur, say so in the state's predicate or in retrieve.
~ reached: left out

Can both machines come to these states?
  Not told: there are $n pairs of values for the two states, and the search for lists of operations looks at $m pairs at most, from a few thousand of them.
~ what predicates leave out

Left out by predicates
~ nothing left out
  Nothing: each operation mentions every primed variable and every output, on both sides.
~ abstract primed variables
  $o, abstract side: $vA is left out and so is free: any value that the state's predicate allows.
~ outputs of the abstract side
  $o, abstract side: $vq is left out and so is free: any value.
~ concrete primed variables
  $o, concrete side: $vC is left out and so is free: any value that the state's predicate allows.
~ outputs of the concrete side
  $o, concrete side: $vq is left out and so is free: any value.
~ preconditions

Preconditions, at related states
~ narrowed
  $o is narrowed: the abstract side can step, the concrete side cannot. That is not allowed. First at:
              $fa
              $fc
$?i              $fi
~ widened
  $o is widened: the concrete side can step where the abstract side cannot. That is allowed: nothing is claimed there. First at:
              $fa
              $fc
$?i              $fi
~ neither
  $o has the same one on both sides.
~ what was bought

What was bought
  Take any list of operations with inputs at each of which the abstract side promises to step, from each of its initial states and whichever way it goes. Then the concrete side can take the whole list too, and whatever it does on the way, the abstract side could have done, with the same outputs. For other lists nothing is claimed.
~ no operation
  There is no operation, so that only the initial states were compared.
~ no concrete initial state
  There is no concrete initial state: the concrete side never begins, and all of this holds for want of a run.
~ states
  The abstract side has $n states.
~ concrete states
  The concrete side has $n states.
~ related pairs
  retrieve relates $n pairs of an abstract and a concrete state.
~ a concrete state that stands for nothing
  Some concrete states stand for no abstract state, so that nothing is claimed there. The first: $fc
~ an abstract state that nothing stands for
  Some abstract states have no concrete state that stands for them. The first: $fa
~ promises
  $o: the abstract side promises to step at $n of $m pairs of a state and inputs, and so the concrete side must.
~ no promise
  $o: the abstract side never promises to step, so that $o holds for want of cases.
~ counts left out
  Not counted: there are $n pairs of values for the two states, and $m at most are looked at.
~ a run

A run of both machines side by side
              abstract                                  concrete
  begin$b
~ a step of the run
  $o$?i $fi
$?q  gives $fq
~ the states behind a step
$b
~ refused
refused $n at $m
~ the place

Line $n, column $m:
~ the place at the end

Line $n, column $m, the end of the text:
~ the line underlined
$u
~ rule 1
The text is over 32,768 bytes.
~ rule 2
This byte or symbol is not one of the language. A name begins with a letter, has letters and digits, at most 16, and may have one ' ? or ! right behind it; a number is 0 to 1,000, without a zero in front; a reserved word has no ' ? or ! behind it.
~ rule 3
This is symbol 4,097, and a text has at most 4,096.
~ rule 4
By the form no dossier goes on like this.
~ rule 5
Too deep: over 24, counted in open ( [ {, pending prefixes and right sides of =>; or a fourth bound name in reach.
~ rule 6
One too many.
~ rule 7
The bodies follow the contents, one for each entry, in their order: this heading differs from its entry, is extra, or is wanting.
~ rule 8
The name is already in use.
~ rule 9
The name is unknown, or not in reach here.
~ rule 10
The types do not fit.
~ rule 11
A range has 1 to 64 numbers, from its first to its last; a type of pairs has at most 16 pairs.
~ rule 12
A state has at most 4,096 bindings of its variables to values, the inputs of an operation at most 64, and so its outputs.
~ rule 13
The size is over 2,147,483,647. The size of a variable is its largest absolute value; of a sum or a difference the sum, of a product the product.
~ rule 14
The divisor is 0.
~ could stand
By the form there could stand:$s
~ in use since
It is in use since line $n, column $m.
~ in reach
In reach here: $.
~ a first name
$x$e$.
~ a further name
, $x$e$.
~ none in reach
no name
~ end of names
.
~ the left side
  left:  $x: $.
~ the right side
  right: $x: $.
~ a number
a number
~ an element
an element of $x
~ a set of elements
a set of elements of $x
~ a set of pairs
a set of pairs of $x$.
~ the second set
 and $x
~ of no type
of no type
~ a size
size $n
~ a brace of several types
A brace has elements of one given set, or pairs of one type.
~ too many given sets
At most 8 given sets.
~ too many elements
At most 8 elements in a given set.
~ too many variables
At most 8 variables in a state.
~ too many inputs
At most 3 inputs of an operation.
~ too many outputs
At most 3 outputs of an operation.
~ too many operations
At most 16 operations.
~ the entry of the contents
By the contents this should be the heading: $x
~ no further entry
The contents have no further entry.
~ first end larger
The first number is the larger one.
~ numbers of a range
This range has $n numbers, and $m are allowed.
~ pairs of a type
This type has $n pairs, and $m are allowed.
~ bindings of a group
There are $n bindings, and $m are allowed.
~ bindings not told
There are over $n bindings, and $m are allowed.
~ not compared
  $o: not compared, since there are too many states and inputs to try them all.
~ promises left out
  $o: not counted, since there are too many states and inputs to try them all.
~";

// The symbols by their codes, from 1 on, a space behind each; four codes stand for none.
pub const SPELLINGS: &[u8] =
    b"NUMBER NAME NAME' NAME? NAME! - - - - : ; , | @ ( ) [ ] { } .. = /= < <= => <=> + - * # |-> <-> -+> --> contents given abstract concrete ainit cinit retrieve op end where P empty true false not and or forall exists exists1 in notin union minus inter div mod dom ran ";
