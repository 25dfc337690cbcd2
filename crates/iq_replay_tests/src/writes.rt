//! What writes leave, and why they are refused.
ghost use Rattle.std.specs.Prelude.{◌≡◌, ◌∷◌, [], pos, negsuc, true, false, Some, None, codes};
ghost use Rattle.iq_base.specs.declared.refusals.FieldCause.TheVariants as causes;
ghost use Rattle.iq_base.specs.declared.refusals.Refusal.TheVariants as refusals;
ghost use Rattle.iq_base.specs.declared.schemas.IndexKind.TheVariants as index_kinds;
ghost use Rattle.iq_base.specs.declared.values.Value.TheVariants as values;
ghost use Rattle.iq_ast.specs.declared.conditions.Op.TheVariants as ops;
ghost use Rattle.iq_ast.specs.declared.statements.Item.TheVariants as items;
ghost use Rattle.iq_ast.specs.declared.statements.Write.TheVariants as writes;
ghost use Rattle.iq_model.specs.declared.answers.Answer.TheVariants as answers;
ghost use Rattle.iq_model.specs.declared.answers.Out.TheVariants as outs;
ghost use Rattle.iq_statements.specs.Answers.{answer};
ghost use Rattle.iq_statements.specs.Effects.{effect, count};
ghost use Rattle.iq_replay_tests.specs.Queries as q;
ghost use Rattle.iq_replay_tests.specs.Words.{number_column};

/// A removed row isn't found again, also not by an index that still has it.
pub fn removed_rows_are_not_found()
    ensures count { answer (q.list (items.CountAll ∷ [])) q.after_writes ≡ q.numbers (1 ∷ []) }
    ensures found { answer (q.where_so (q.compare q.x ops.Eq (q.number 5))) q.after_writes ≡ q.numbers (5 ∷ []) }
    ensures removed { count (writes.Delete q.t None) (effect (q.insert_number 5) q.with_two_indexes) ≡ 1 }
    ensures without_low_fast { answer (q.explained (q.compare q.x ops.Eq (q.number 5)))
        (effect (writes.DropIndex q.t (codes "l")) q.after_writes)
        ≡ answers.Plan (codes "x = 5 via HG h" ∷ []) }
{}

/// UPDATE removes the rows and appends their new forms, so that they come last.
pub fn updated_rows_come_last()
    ensures rows { answer (q.list (items.Plain q.v ∷ []))
        (effect (writes.Update q.t (record { column = q.v; value = q.number 9 } ∷ [])
        (Some (q.compare q.r ops.Eq (q.text (codes "a"))))) q.with_groups)
        ≡ answers.Rows ((q.out 1 ∷ []) ∷ (outs.Null ∷ []) ∷ (q.out 4 ∷ []) ∷ (q.out 9 ∷ []) ∷ (q.out 9 ∷ []) ∷ []) }
    ensures count { count (writes.Update q.t (record { column = q.v; value = q.number 9 } ∷ [])
        (Some (q.compare q.r ops.Eq (q.text (codes "a"))))) q.with_groups ≡ 2 }
{}

/// Tables stand by their names; one that is dropped is gone.
pub fn tables_stand_by_their_names()
    ensures created { effect (writes.DropTable q.t) (effect (writes.CreateTable q.a (record { columns = number_column q.x ∷ [] })) q.with_null)
        ≡ record { name = q.a; columns = number_column q.x ∷ []; indexes = []; slots = [] } ∷ [] }
    ensures exists { q.write_refusal (writes.CreateTable q.t (record { columns = number_column q.x ∷ [] })) q.with_null
        ≡ Some (refusals.TableExists q.t) }
    ensures no_table { q.write_refusal (writes.DropTable (codes "u")) q.with_null ≡ Some (refusals.NoTable (codes "u")) }
{}

/// The first bad value of a row is named by its row and its field, a wrong number of values by field 0.
pub fn bad_values_are_named_by_their_place()
    ensures range { q.write_refusal (writes.Insert q.t ((q.number 1 ∷ []) ∷ (q.number 2147483648 ∷ []) ∷ [])) q.with_null
        ≡ Some (refusals.BadRow 2 1 causes.Range) }
    ensures count { q.write_refusal (writes.Insert q.t ((q.number 1 ∷ q.number 2 ∷ []) ∷ [])) q.with_null
        ≡ Some (refusals.BadRow 1 0 causes.Count) }
    ensures kind { q.write_refusal (writes.Insert q.t ((q.text (codes "a") ∷ []) ∷ [])) q.with_null
        ≡ Some (refusals.BadRow 1 1 causes.NotNumber) }
    ensures set_range { q.write_refusal (writes.Update q.t (record { column = q.x; value = q.number 2147483648 } ∷ []) None) q.with_null
        ≡ Some (refusals.TypeMismatch q.x) }
    ensures set_length { q.write_refusal (writes.Update q.t (record { column = q.r; value = q.text (codes "longer") } ∷ []) None) q.with_groups
        ≡ Some (refusals.TextTooLong q.r) }
{}

/// An index has a new name, columns of the table that it can be on, and no index is dropped that isn't there.
pub fn indexes_have_to_fit()
    ensures unfit { q.room_refusal (writes.CreateIndex (codes "i") index_kinds.Hng q.t q.r None) q.with_groups ≡ Some (refusals.IndexUnfit q.r) }
    ensures types { q.room_refusal (writes.CreateIndex (codes "i") index_kinds.Cmp q.t q.v (Some q.r)) q.with_groups
        ≡ Some (refusals.IndexUnfit q.v) }
    ensures exists { q.write_refusal (writes.CreateIndex (codes "l") index_kinds.Hg q.t q.x None) q.with_two_indexes
        ≡ Some (refusals.IndexExists (codes "l")) }
    ensures column_first { q.write_refusal (writes.CreateIndex (codes "l") index_kinds.Hg q.t q.y None) q.with_two_indexes
        ≡ Some (refusals.NoColumn q.y) }
    ensures no_index { q.write_refusal (writes.DropIndex q.t (codes "i")) q.with_two_indexes ≡ Some (refusals.NoIndex (codes "i")) }
    ensures fits { q.room_refusal (writes.CreateIndex (codes "i") index_kinds.Lf q.t q.x None) q.with_null ≡ None }
{}
