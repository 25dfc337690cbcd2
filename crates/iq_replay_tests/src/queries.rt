//! What queries answer: NULL, ranges of numbers with a sign, two columns compared, groups and orders.
ghost use Rattle.std.specs.Prelude.{◌≡◌, ◌∷◌, [], pos, negsuc, true, false, Some, None, codes};
ghost use Rattle.iq_base.specs.declared.refusals.Refusal.TheVariants as refusals;
ghost use Rattle.iq_base.specs.declared.values.Value.TheVariants as values;
ghost use Rattle.iq_ast.specs.declared.conditions.Op.TheVariants as ops;
ghost use Rattle.iq_ast.specs.declared.statements.Item.TheVariants as items;
ghost use Rattle.iq_model.specs.declared.answers.Answer.TheVariants as answers;
ghost use Rattle.iq_model.specs.declared.answers.Out.TheVariants as outs;
ghost use Rattle.iq_statements.specs.Answers.{answer};
ghost use Rattle.iq_replay_tests.specs.Queries as q;

/// A comparison with NULL is never true, nor is its NOT; IS NULL is never unknown.
pub fn null_is_neither_equal_nor_unequal()
    ensures unequal { answer (q.where_so (q.compare q.x ops.Ne (q.number 1))) q.with_null ≡ q.numbers (2 ∷ []) }
    ensures negated { answer (q.where_so (q.not_so (q.compare q.x ops.Ne (q.number 1)))) q.with_null ≡ q.numbers (1 ∷ []) }
    ensures is_null { answer (q.where_so (q.is_null q.x)) q.with_null ≡ answers.Rows ((outs.Null ∷ []) ∷ []) }
    ensures equal_to_null { answer (q.where_so (q.compare q.x ops.Eq values.Null)) q.with_null ≡ answers.Rows [] }
    ensures not_in_null { answer (q.where_so (q.one_of q.x true (q.number 1 ∷ values.Null ∷ []))) q.with_null ≡ answers.Rows [] }
    ensures either { answer (q.where_so (q.either (q.is_null q.x) (q.compare q.x ops.Gt (q.number 1)))) q.with_null
        ≡ answers.Rows ((q.out 2 ∷ []) ∷ (outs.Null ∷ []) ∷ []) }
{}

/// Numbers compare by their value, with their sign; a sum is of whole numbers.
pub fn numbers_compare_with_their_sign()
    ensures between { answer (q.where_so (q.between q.x (values.Int (negsuc 0)) (q.number 2147483647))) q.with_signs
        ≡ answers.Rows ((outs.Int (negsuc 0) ∷ []) ∷ (q.out 0 ∷ []) ∷ (q.out 2147483647 ∷ []) ∷ []) }
    ensures below { answer (q.where_so (q.compare q.x ops.Lt (q.number 0))) q.with_signs
        ≡ answers.Rows ((outs.Int (negsuc 2147483647) ∷ []) ∷ (outs.Int (negsuc 0) ∷ []) ∷ []) }
    ensures sum { answer (q.list (items.Sum q.x ∷ [])) q.with_signs ≡ answers.Rows ((outs.Int (negsuc 1) ∷ []) ∷ []) }
{}

/// Two columns are compared row by row; a NULL in one is neither less nor equal nor greater.
pub fn two_columns_are_compared()
    ensures less { answer (q.where_so (q.columns q.a ops.Lt q.b)) q.with_pairs ≡ answers.Rows ((q.out 1 ∷ q.out 2 ∷ []) ∷ []) }
    ensures equal { answer (q.where_so (q.columns q.a ops.Eq q.b)) q.with_pairs ≡ answers.Rows ((q.out 2 ∷ q.out 2 ∷ []) ∷ []) }
    ensures greater { answer (q.where_so (q.columns q.a ops.Gt q.b)) q.with_pairs ≡ answers.Rows ((q.out 3 ∷ q.out 2 ∷ []) ∷ []) }
    ensures unequal { answer (q.where_so (q.columns q.a ops.Ne q.b)) q.with_pairs
        ≡ answers.Rows ((q.out 1 ∷ q.out 2 ∷ []) ∷ (q.out 3 ∷ q.out 2 ∷ []) ∷ []) }
{}

/// Groups stand in the order of their keys, NULL first; aggregates leave NULL out, and COUNT(*) doesn't.
pub fn groups_stand_in_the_order_of_their_keys()
    ensures groups { answer (q.grouped
        (items.Plain q.r ∷ items.CountAll ∷ items.Count q.v ∷ items.Sum q.v ∷ items.Max q.v ∷ []) (q.r ∷ [])) q.with_groups
        ≡ answers.Rows ((outs.Null ∷ q.out 1 ∷ q.out 1 ∷ q.out 4 ∷ q.out 4 ∷ [])
        ∷ (outs.Text (codes "a") ∷ q.out 2 ∷ q.out 2 ∷ q.out 0 ∷ q.out 2 ∷ [])
        ∷ (outs.Text (codes "b") ∷ q.out 2 ∷ q.out 1 ∷ q.out 1 ∷ q.out 1 ∷ []) ∷ []) }
    ensures no_rows { answer (q.list (items.CountAll ∷ items.Sum q.x ∷ items.Min q.x ∷ [])) q.without_rows
        ≡ answers.Rows ((q.out 0 ∷ outs.Null ∷ outs.Null ∷ []) ∷ []) }
    ensures no_groups { answer (q.grouped (items.Plain q.x ∷ items.CountAll ∷ []) (q.x ∷ [])) q.without_rows ≡ answers.Rows [] }
{}

/// DESC reverses an order, NULL with it; rows that tie keep their order.
pub fn descending_puts_null_last()
    ensures columns { answer (q.ordered (items.Plain q.r ∷ items.Plain q.v ∷ [])
        (record { column = q.r; desc = true } ∷ record { column = q.v; desc = false } ∷ [])) q.with_groups
        ≡ answers.Rows ((outs.Text (codes "b") ∷ outs.Null ∷ []) ∷ (outs.Text (codes "b") ∷ q.out 1 ∷ [])
        ∷ (outs.Text (codes "a") ∷ outs.Int (negsuc 1) ∷ []) ∷ (outs.Text (codes "a") ∷ q.out 2 ∷ [])
        ∷ (outs.Null ∷ q.out 4 ∷ []) ∷ []) }
    ensures ties { answer (q.ordered (items.Plain q.v ∷ []) (record { column = q.r; desc = true } ∷ [])) q.with_groups
        ≡ answers.Rows ((q.out 1 ∷ []) ∷ (outs.Null ∷ []) ∷ (q.out 2 ∷ []) ∷ (outs.Int (negsuc 1) ∷ []) ∷ (q.out 4 ∷ []) ∷ []) }
{}

/// A plan has a row for each test, with NOT carried into it, and what serves it.
pub fn plans_are_printed_by_their_tests()
    ensures carried { answer (q.explained (q.not_so (q.either (q.compare q.x ops.Lt (q.number 1))
        (q.between q.y (q.number 2) (q.number 3))))) q.without_rows
        ≡ answers.Plan (codes "x >= 1 via FP" ∷ codes "y NOT BETWEEN 2 AND 3 via FP" ∷ []) }
    ensures range { answer (q.explained (q.compare q.x ops.Lt (q.number 0))) q.with_signs ≡ answers.Plan (codes "x < 0 via HNG h" ∷ []) }
    ensures both { answer (q.explained (q.columns q.b ops.Gt q.a)) q.with_pairs ≡ answers.Plan (codes "b > a via CMP k" ∷ []) }
    ensures low_fast { answer (q.explained (q.compare q.x ops.Eq (q.number 5))) q.with_two_indexes
        ≡ answers.Plan (codes "x = 5 via LF l" ∷ []) }
    ensures nulls { answer (q.explained (q.one_of q.x false (q.number 1 ∷ values.Null ∷ q.number 2 ∷ []))) q.with_null
        ≡ answers.Plan (codes "x IN (1,2) via FP" ∷ []) }
    ensures null_alone { answer (q.explained (q.one_of q.x false (values.Null ∷ []))) q.with_null
        ≡ answers.Plan (codes "x IN (NULL) via none" ∷ []) }
    ensures null_end { answer (q.explained (q.not_so (q.between q.x (q.number 1) values.Null))) q.with_null
        ≡ answers.Plan (codes "x < 1 via FP" ∷ codes "x > NULL via none" ∷ []) }
    ensures all { answer q.explained_all q.with_null ≡ answers.Plan (codes "all via existence" ∷ []) }
{}

/// Beside an aggregate a column has to be grouped by; a sum is of numbers; a name is a column's.
pub fn queries_are_refused_by_what_they_name()
    ensures not_grouped { q.query_refusal (q.list (items.Plain q.v ∷ items.CountAll ∷ [])) q.with_groups ≡ Some (refusals.NotGrouped q.v) }
    ensures text_sum { q.query_refusal (q.list (items.Sum q.r ∷ [])) q.with_groups ≡ Some (refusals.TypeMismatch q.r) }
    ensures no_column { q.query_refusal (q.list (items.Plain q.x ∷ [])) q.with_groups ≡ Some (refusals.NoColumn q.x) }
    ensures no_table { q.query_refusal (q.list []) [] ≡ Some (refusals.NoTable q.t) }
    ensures class { q.query_refusal (q.where_so (q.columns q.v ops.Eq q.r)) q.with_groups ≡ Some (refusals.TypeMismatch q.v) }
    ensures none { q.query_refusal (q.grouped (items.Plain q.r ∷ []) (q.r ∷ [])) q.with_groups ≡ None }
{}
