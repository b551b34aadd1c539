//! Laws of the models of fuse files, as the contracts of a call that does nothing.

ghost use Rattle.std.specs.Prelude.{◌≡◌, ℕ, List};
ghost use Rattle.devices.specs.Models.{table_at};
ghost use Rattle.file_models.specs.FileModels.{file_table};
ghost use Rattle.jedec_file.specs.FuseFile.{FuseFile};
ghost use Rattle.jedec_reader.specs.DeviceFiles.{IsFileOf};
ghost use Rattle.pld_base.specs.declared.model.Model.{Model};

/// A fuse file of a model is one of its name, and has the model's table. Does nothing.
pub fn models()
    ensures { (model : Model) (bytes : List ℕ) (file : FuseFile) → IsFileOf (table_at model) bytes file
        → file_table model.name bytes ≡ table_at model }
{}
