//! The fields that are written of each action, in the byte order of their keys.

ghost use Rattle.dk_model.specs.ProtocolObject.{protocol_fields};
ghost use Rattle.dk_model.specs.MetadataObject.{format_fields, metadata_fields};
ghost use Rattle.dk_model.specs.AddObject.{add_fields};
ghost use Rattle.dk_model.specs.RemoveObject.{remove_fields};
ghost use Rattle.dk_model.specs.TxnObject.{txn_fields};
ghost use Rattle.dk_model.specs.DomainObject.{domain_fields};
ghost use Rattle.dk_model.specs.InfoObject.{own_info_fields};
ghost use Rattle.dk_model.specs.CheckpointObjects.{checkpoint_meta_fields, sidecar_fields};

use crate::object::{Object, object_field};
use crate::shown::{field, field_if, text_field};
use dk_model::{AddFile, Application, CheckpointMeta, Metadata, Protocol, SidecarRef};
use json::Writer;
use std::alloc::AllocError;

impl Object for Protocol {
    ghost fields = { protocol_fields };

    #[tactic(auto, unfolding(dk_model::specs::ProtocolObject::protocol_fields))]
    fn write_fields(&self, writer: &mut Writer) -> Result<(), AllocError> {
        field(writer, "minReaderVersion", &self.min_reader)?;
        field(writer, "minWriterVersion", &self.min_writer)?;
        field_if(writer, "readerFeatures", &self.reader_features)?;
        field_if(writer, "writerFeatures", &self.writer_features)?;
        Ok(())
    }
}

/// The format of a table's data files.
#[derive(Clone, Copy)]
pub(crate) struct Format<'a> {
    metadata: &'a Metadata,
}

impl<'a> Object for Format<'a> {
    ghost fields = { λ f. format_fields f.metadata.now };

    #[tactic(auto, unfolding(dk_model::specs::MetadataObject::format_fields))]
    fn write_fields(&self, writer: &mut Writer) -> Result<(), AllocError> {
        field(writer, "options", &self.metadata.options)?;
        field(writer, "provider", &self.metadata.provider)?;
        Ok(())
    }
}

impl Object for Metadata {
    ghost fields = { metadata_fields };

    #[tactic(auto, unfolding(dk_model::specs::MetadataObject::metadata_fields))]
    fn write_fields(&self, writer: &mut Writer) -> Result<(), AllocError> {
        field(writer, "configuration", &self.configuration)?;
        field_if(writer, "createdTime", &self.created_time)?;
        field_if(writer, "description", &self.description)?;
        object_field(writer, "format", &Format { metadata: self })?;
        field(writer, "id", &self.id)?;
        field_if(writer, "name", &self.name)?;
        field(writer, "partitionColumns", &self.partition_columns)?;
        field(writer, "schemaString", &self.schema_string)?;
        Ok(())
    }
}

impl Object for AddFile {
    ghost fields = { add_fields };

    #[tactic(auto, unfolding(dk_model::specs::AddObject::add_fields))]
    fn write_fields(&self, writer: &mut Writer) -> Result<(), AllocError> {
        field_if(writer, "baseRowId", &self.base_row_id)?;
        field_if(writer, "clusteringProvider", &self.clustering_provider)?;
        field(writer, "dataChange", &self.data_change)?;
        field_if(
            writer,
            "defaultRowCommitVersion",
            &self.default_row_commit_version,
        )?;
        field(writer, "modificationTime", &self.modification_time)?;
        field(writer, "partitionValues", &self.partition_values)?;
        field(writer, "path", &self.path)?;
        field(writer, "size", &self.size)?;
        field_if(writer, "stats", &self.stats)?;
        field_if(writer, "tags", &self.tags)?;
        Ok(())
    }
}

/// A removed file, by its parts.
#[derive(Clone, Copy)]
pub(crate) struct Removal<'a> {
    pub(crate) path: &'a str,
    pub(crate) time: i64,
    pub(crate) change: bool,
}

impl<'a> Object for Removal<'a> {
    ghost fields = { λ r. remove_fields (record { path = r.path.now; deletion_timestamp = r.time; data_change = r.change }) };

    #[tactic(auto, unfolding(dk_model::specs::RemoveObject::remove_fields))]
    fn write_fields(&self, writer: &mut Writer) -> Result<(), AllocError> {
        field(writer, "dataChange", &self.change)?;
        field(writer, "deletionTimestamp", &self.time)?;
        text_field(writer, "path", self.path)?;
        Ok(())
    }
}

/// What an application has recorded, by its parts.
#[derive(Clone, Copy)]
pub(crate) struct Recorded<'a> {
    pub(crate) app_id: &'a str,
    pub(crate) application: &'a Application,
}

impl<'a> Object for Recorded<'a> {
    ghost fields = { λ r. txn_fields (record { app_id = r.app_id.now; version = r.application.now.version; last_updated = r.application.now.last_updated }) };

    #[tactic(auto, unfolding(dk_model::specs::TxnObject::txn_fields))]
    fn write_fields(&self, writer: &mut Writer) -> Result<(), AllocError> {
        text_field(writer, "appId", self.app_id)?;
        field_if(writer, "lastUpdated", &self.application.last_updated)?;
        field(writer, "version", &self.application.version)?;
        Ok(())
    }
}

/// The settings of a domain, by their parts.
#[derive(Clone, Copy)]
pub(crate) struct Settings<'a> {
    pub(crate) domain: &'a str,
    pub(crate) configuration: &'a str,
    pub(crate) removed: bool,
}

impl<'a> Object for Settings<'a> {
    ghost fields = { λ s. domain_fields (record { domain = s.domain.now; configuration = s.configuration.now; removed = s.removed }) };

    #[tactic(auto, unfolding(dk_model::specs::DomainObject::domain_fields))]
    fn write_fields(&self, writer: &mut Writer) -> Result<(), AllocError> {
        text_field(writer, "configuration", self.configuration)?;
        text_field(writer, "domain", self.domain)?;
        field(writer, "removed", &self.removed)?;
        Ok(())
    }
}

impl Object for CheckpointMeta {
    ghost fields = { checkpoint_meta_fields };

    #[tactic(auto, unfolding(dk_model::specs::CheckpointObjects::checkpoint_meta_fields))]
    fn write_fields(&self, writer: &mut Writer) -> Result<(), AllocError> {
        field(writer, "version", &self.version)?;
        Ok(())
    }
}

impl Object for SidecarRef {
    ghost fields = { sidecar_fields };

    #[tactic(auto, unfolding(dk_model::specs::CheckpointObjects::sidecar_fields))]
    fn write_fields(&self, writer: &mut Writer) -> Result<(), AllocError> {
        field(writer, "modificationTime", &self.stamp)?;
        field(writer, "path", &self.path)?;
        field(writer, "sizeInBytes", &self.size)?;
        Ok(())
    }
}

/// What a transaction says of its own commit.
#[derive(Clone, Copy)]
pub(crate) struct OwnInfo<'a> {
    pub(crate) txn_id: &'a str,
    pub(crate) timestamp: i64,
}

impl<'a> Object for OwnInfo<'a> {
    ghost fields = { λ i. own_info_fields i.txn_id.now i.timestamp };

    #[tactic(auto, unfolding(dk_model::specs::InfoObject::own_info_fields))]
    fn write_fields(&self, writer: &mut Writer) -> Result<(), AllocError> {
        text_field(writer, "engineInfo", "deltak")?;
        field(writer, "timestamp", &self.timestamp)?;
        text_field(writer, "txnId", self.txn_id)?;
        Ok(())
    }
}
